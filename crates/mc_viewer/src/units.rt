//! The units of a file.
ghost use Rattle.std.specs.Prelude.{◌≡◌, ◌≤◌, ◌<◌, ◌+◌, ◌^◌, ◌∷◌, [], ◌++◌, length};
ghost use Rattle.std.specs.Prelude.{take, drop, string_bytes, true, IfOk, IfSome};
ghost use Rattle.std.specs.Str.{is_utf8};
ghost use Rattle.text_units.specs.Units.{unit_columns, piece_in_sight};
ghost use Rattle.mc_viewer.specs.Units.{unit_length, is_plain};

use std::alloc::AllocError;
use std::str;
use text_units::Sight;

/// The bytes of the first unit.
#[tactic(auto, using(crate::proofs::UnitLemmas::unit_fits))]
pub fn unit_length(bytes: &[u8]) -> usize
    requires { 1 ≤ length bytes.now }
    ensures value { result ≡ unit_length bytes.now }
    ensures some { 1 ≤ result }
    ensures short { result ≤ 4 }
    ensures within { result ≤ length bytes.now }
{
    shortest_text(bytes)
}

/// The least number of bytes, of at most four, that are a text, or else one.
#[tactic(auto, unfolding(crate::specs::Units::unit_length))]
fn shortest_text(bytes: &[u8]) -> usize
    requires { 1 ≤ length bytes.now }
    ensures value { result ≡ unit_length bytes.now }
    ensures some { 1 ≤ result }
    ensures short { result ≤ 4 }
{
    if is_plain(bytes[0]) {
        return 1;
    }
    if is_text(front(bytes, 1)) {
        return 1;
    }
    if is_text(front(bytes, 2)) {
        return 2;
    }
    if is_text(front(bytes, 3)) {
        return 3;
    }
    if is_text(front(bytes, 4)) {
        return 4;
    }
    1
}

/// Whether a byte is a printable character of ASCII. Such a unit shows as itself in one column, and
/// no table is asked for it.
pub fn is_plain(byte: u8) -> bool
    ensures { result ≡ is_plain byte }
{
    b' ' <= byte && byte <= b'~'
}

/// The byte of a unit that is a printable character of ASCII.
fn plain_byte(unit: &[u8]) -> Option<u8>
    ensures { IfSome result (λ byte. (unit.now ≡ byte ∷ []) × (is_plain byte ≡ true)) }
{
    if unit.len() != 1 {
        return None;
    }
    let byte = unit[0];
    if is_plain(byte) { Some(byte) } else { None }
}

/// The columns of a unit that begins in this column.
pub fn unit_columns(column: usize, unit: &[u8]) -> usize
    ensures value { result ≡ unit_columns column unit.now }
    ensures some { 1 ≤ result }
    ensures bound { result ≤ 8 }
{
    match plain_byte(unit) {
        Some(_byte) => 1,
        None => text_units::unit_columns(column, unit),
    }
}

/// Puts what is in sight of a unit behind the row.
pub fn push_piece(
    row: &mut String,
    sight: Sight,
    column: usize,
    unit: &[u8],
) -> Result<(), AllocError>
    requires small { column < 2 ^ 63 }
    requires narrow { sight.right < 2 ^ 60 }
    ensures { IfOk result (λ _. string_bytes row.new
        ≡ string_bytes row.old ++ piece_in_sight sight.left sight.right column unit.now) }
{
    match plain_byte(unit) {
        Some(byte) => push_plain(row, sight, column, byte),
        None => text_units::push_piece(row, sight, column, unit),
    }
}

/// Puts a printable character of ASCII behind the row, where it is in sight.
fn push_plain(row: &mut String, sight: Sight, column: usize, byte: u8) -> Result<(), AllocError>
    requires plain { is_plain byte ≡ true }
    ensures { IfOk result (λ _. string_bytes row.new
        ≡ string_bytes row.old ++ piece_in_sight sight.left sight.right column (byte ∷ [])) }
{
    if column < sight.left {
        return Ok(());
    }
    if column >= sight.right {
        return Ok(());
    }
    row.push(byte as char)?;
    Ok(())
}

/// At most so many bytes from the start.
pub fn front(bytes: &[u8], count: usize) -> &[u8]
    ensures { result.now ≡ take count bytes.now }
{
    if count < bytes.len() {
        bytes.split_at(count).0
    } else {
        bytes
    }
}

/// The bytes from a place on.
pub fn rest_from(bytes: &[u8], at: usize) -> &[u8]
    requires { at ≤ length bytes.now }
    ensures { result.now ≡ drop at bytes.now }
{
    bytes.split_at(at).1
}

fn is_text(bytes: &[u8]) -> bool
    ensures { result ≡ is_utf8 bytes.now }
{
    match str::from_utf8(bytes) {
        Ok(_) => true,
        Err(_) => false,
    }
}
