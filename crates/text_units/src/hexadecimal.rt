//! Rows of bytes in hexadecimal: an offset, the digits of at most sixteen bytes, and the bytes as
//! characters, column by column.

ghost use Rattle.std.specs.Prelude.{◌≡◌, ◌+◌, ◌-◌, ◌*◌, ◌<◌, ◌≤◌, ◌/◌, ◌%◌};
ghost use Rattle.std.specs.Prelude.{◌^◌, ◌++◌, length, min, string_bytes, IfOk};
ghost use Rattle.text_units.specs.HexRows.{hex_digit, offset_digits, digit_at, byte_column, digits_column};
ghost use Rattle.text_units.specs.HexRows.{printed_byte, behind_offset, hex_column, hex_columns, hex_row};

use mc_text::{NoMemory, Text};
use std::alloc::Global;

/// The row of at most sixteen bytes, cut at the columns of the screen.
pub fn hex_row(alloc: Global, columns: usize, offset: u64, bytes: &[u8]) -> Result<Text, NoMemory>
    requires { length bytes.now ≤ 16 }
    ensures { IfOk result (λ text. text ≡ hex_row columns offset bytes.now) }
{
    let mut row = String::new(alloc);
    for column in 0..columns.min(offset_digits(offset) + 52 + bytes.len()) {
        row.push(hex_column(offset, bytes, column) as char)?;
    }
    Ok(Text(row))
}

/// What stands in a column of a row.
#[tactic(auto, unfolding(crate::specs::HexRows::hex_column))]
fn hex_column(offset: u64, bytes: &[u8], column: usize) -> u8
    requires { column < offset_digits offset + 52 + length bytes.now }
    ensures value { result ≡ hex_column offset bytes.now column }
    ensures ascii { result < 128 }
{
    let digits = offset_digits(offset);
    if column < digits {
        return digit_at(offset, digits - 1 - column);
    }
    behind_offset(bytes, column - digits)
}

/// What stands in a column behind the offset: two blanks, the digits, two blanks, the bytes as characters.
fn behind_offset(bytes: &[u8], column: usize) -> u8
    requires { column < 52 + length bytes.now }
    ensures value { result ≡ behind_offset bytes.now column }
    ensures ascii { result < 128 }
{
    if column < 2 {
        return b' ';
    }
    if column < 50 {
        return digits_column(bytes, column - 2);
    }
    if column < 52 {
        return b' ';
    }
    printed(bytes[column - 52])
}

/// What stands in a column of the digits: three columns a byte, and one more behind the eighth.
fn digits_column(bytes: &[u8], column: usize) -> u8
    ensures value { result ≡ digits_column bytes.now column }
    ensures ascii { result < 128 }
{
    if column < 24 {
        return byte_column(bytes, column / 3, column % 3);
    }
    byte_column(bytes, (column - 1) / 3, (column - 1) % 3)
}

/// One of the digits of a byte, or the blank behind them. A byte that is missing is blank.
fn byte_column(bytes: &[u8], byte: usize, part: usize) -> u8
    requires { part ≤ 2 }
    ensures value { result ≡ byte_column bytes.now byte part }
    ensures ascii { result < 128 }
{
    if bytes.len() <= byte {
        return b' ';
    }
    if part == 2 {
        return b' ';
    }
    digit_at(bytes[byte] as u64, 1 - part)
}

/// The digits of an offset: eight below 4 GiB, sixteen from there on.
fn offset_digits(offset: u64) -> usize
    ensures value { result ≡ offset_digits offset }
    ensures few { result ≤ 16 }
{
    if offset < 1 << 32 { 8 } else { 16 }
}

/// A digit of a number. The last one has place 0.
fn digit_at(number: u64, place: usize) -> u8
    requires { place < 16 }
    ensures value { result ≡ digit_at number place }
    ensures ascii { result < 128 }
{
    hex_digit(((number >> (4 * place)) % 16) as u8)
}

/// A digit below 16, in lower case.
fn hex_digit(digit: u8) -> u8
    requires { digit < 16 }
    ensures value { result ≡ hex_digit digit }
    ensures ascii { result < 128 }
{
    if digit < 10 { 48 + digit } else { 87 + digit }
}

/// A byte as a character of ASCII that can be printed, or a dot.
fn printed(byte: u8) -> u8
    ensures value { result ≡ printed_byte byte }
    ensures ascii { result < 128 }
{
    if byte < 32 {
        return b'.';
    }
    if byte > 126 {
        return b'.';
    }
    byte
}
