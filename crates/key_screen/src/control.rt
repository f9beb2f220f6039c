//! The sequences that are written to a terminal.
ghost use Rattle.std.specs.Prelude.{◌≡◌, ◌≤◌, ◌+◌, ◌<◌, ◌^◌, length, drop, IfSome};
ghost use Rattle.key_screen.specs.Controls.{control_of as read_of, bracket_sequence as bracketed_of};
ghost use Rattle.key_screen.specs.Controls.{placement_of, placement_sequence, number_from};

use crate::cells::Attr;

/// What a sequence does.
#[derive(Clone, Copy, Debug, PartialEq, Eq)]
pub enum Control {
    /// All cells are blank and plain.
    Clear,
    /// How text looks from here on.
    Look(Attr),
    /// The next cluster goes into the cell of this row and column, counted from 1.
    Place(u32, u32),
}

/// A control, and how many bytes it takes after its escape.
#[derive(Clone, Copy, Debug, PartialEq, Eq)]
pub struct Sequence {
    pub control: Control,
    pub bytes: usize,
}

/// A decimal number, at most 65,536, and how many digits it has.
#[derive(Clone, Copy, Debug, PartialEq, Eq)]
pub struct Number {
    pub value: u32,
    pub digits: usize,
}

/// The sequence that bytes after an escape begin with, if they begin with one that is read.
pub fn control_of(bytes: &[u8]) -> Option<Sequence>
    ensures value { result ≡ read_of bytes.now }
    ensures within { IfSome result (λ sequence. sequence.bytes ≤ length bytes.now) }
{
    match bytes {
        [b'[', rest @ ..] => bracketed(rest),
        _ => None,
    }
}

/// The sequence that bytes after an escape and `[` begin with.
fn bracketed(bytes: &[u8]) -> Option<Sequence>
    ensures value { result ≡ bracketed_of bytes.now }
    ensures within { IfSome result (λ sequence. sequence.bytes ≤ length bytes.now + 1) }
{
    match bytes {
        [b'0', b'm', ..] => Some(of_three(Control::Look(Attr::Plain))),
        [b'1', b'm', ..] => Some(of_three(Control::Look(Attr::Bold))),
        [b'7', b'm', ..] => Some(of_three(Control::Look(Attr::Reverse))),
        [b'2', b'J', ..] => Some(of_three(Control::Clear)),
        [_, _, ..] => placement(bytes),
        _ => None,
    }
}

/// A sequence of three bytes after its escape.
fn of_three(control: Control) -> Sequence
    ensures { result ≡ record { control = control; bytes = 3 } }
{
    Sequence { control, bytes: 3 }
}

/// The placement that bytes after an escape and `[` begin with.
fn placement(bytes: &[u8]) -> Option<Sequence>
    ensures value { result ≡ placement_of bytes.now }
    ensures within { IfSome result (λ sequence. sequence.bytes ≤ length bytes.now + 1) }
{
    let row = number_at(bytes);
    match &bytes[row.digits..] {
        [b';', rest @ ..] => place_in(row, rest),
        _ => None,
    }
}

/// The rest of a placement in this row, after `;`.
fn place_in(row: Number, bytes: &[u8]) -> Option<Sequence>
    requires { row.digits + length bytes.now < 2 ^ 63 }
    ensures value { result ≡ placement_sequence row (number_from 0 0 bytes.now)
        (drop (number_from 0 0 bytes.now).digits bytes.now) }
    ensures within { IfSome result (λ sequence. sequence.bytes ≤ row.digits + length bytes.now + 2) }
{
    let column = number_at(bytes);
    match &bytes[column.digits..] {
        [b'H', ..] => Some(Sequence {
            control: Control::Place(row.value, column.value),
            bytes: row.digits + column.digits + 3,
        }),
        _ => None,
    }
}

/// The number that bytes begin with. It is 0 where they begin with no digit.
fn number_at(bytes: &[u8]) -> Number
    ensures value { result ≡ number_from 0 0 bytes.now }
    ensures within { result.digits ≤ length bytes.now }
{
    let mut value = 0;
    for (digits, byte) in bytes.iter().enumerate() {
        if !byte.is_ascii_digit() {
            return Number { value, digits };
        }
        value = (value * 10 + u32::from(*byte - b'0')).min(65_536);
    }
    Number {
        value,
        digits: bytes.len(),
    }
}
