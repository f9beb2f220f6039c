//! The keys that are spelled by an escape, `[` or `O`, and what follows.
ghost use Rattle.std.specs.Prelude.{◌≡◌, []};
ghost use Rattle.key_screen.specs.KeySpelling.{sequence as sequence_of, letter as letter_of, sequence_base};
ghost use Rattle.key_screen.specs.KeySpelling.{cursor_base, letter_base, one_digit_base, two_digits_base};

use crate::keys::Base;
use crate::spelling::{Spelling, ended};

/// The most bytes between `[` and the last byte of a sequence.
const MOST_PARAMETERS: usize = 16;

/// What the bytes after an escape and `[` spell.
pub fn sequence(bytes: &[u8]) -> Spelling
    ensures { result ≡ sequence_of [] bytes.now }
{
    for (count, byte) in bytes.iter().enumerate() {
        match *byte {
            0x40..=0x7e => {
                let base = sequence_key(&bytes[..count], *byte);
                return ended(false, base, &bytes[count + 1..]);
            }
            0x30..=0x3f if count < MOST_PARAMETERS => {}
            _ => return Spelling::Broken,
        }
    }
    Spelling::Partial
}

/// What the bytes after an escape and `O` spell.
pub fn letter(bytes: &[u8]) -> Spelling
    ensures { result ≡ letter_of bytes.now }
{
    match bytes {
        [] => Spelling::Partial,
        [last @ 0x40..=0x7e, rest @ ..] => ended(false, letter_key(*last), rest),
        _ => Spelling::Broken,
    }
}

/// The key of a sequence, by its bytes between `[` and the last, and its last.
fn sequence_key(parameters: &[u8], last: u8) -> Base
    ensures { result ≡ sequence_base parameters.now last }
{
    match parameters {
        [] => cursor_key(last),
        [digit] if last == b'~' => one_digit_key(*digit),
        [tens, ones] if last == b'~' => two_digits_key(*tens, *ones),
        _ => Base::Unknown,
    }
}

/// The cursor keys.
fn cursor_key(letter: u8) -> Base
    ensures { result ≡ cursor_base letter }
{
    match letter {
        b'A' => Base::Up,
        b'B' => Base::Down,
        b'C' => Base::Right,
        b'D' => Base::Left,
        b'H' => Base::Home,
        b'F' => Base::End,
        _ => Base::Unknown,
    }
}

/// The keys of one letter after `O`.
fn letter_key(letter: u8) -> Base
    ensures { result ≡ letter_base letter }
{
    match letter {
        b'P'..=b'S' => Base::F(letter - b'P' + 1),
        _ => cursor_key(letter),
    }
}

/// The keys of a number of one digit.
fn one_digit_key(digit: u8) -> Base
    ensures { result ≡ one_digit_base digit }
{
    match digit {
        b'1' | b'7' => Base::Home,
        b'2' => Base::Insert,
        b'3' => Base::Delete,
        b'4' | b'8' => Base::End,
        b'5' => Base::PgUp,
        b'6' => Base::PgDn,
        _ => Base::Unknown,
    }
}

/// The keys of a number of two digits.
fn two_digits_key(tens: u8, ones: u8) -> Base
    ensures { result ≡ two_digits_base tens ones }
{
    match (tens, ones) {
        (b'1', b'1'..=b'5') => Base::F(ones - b'0'),
        (b'1', b'7'..=b'9') => Base::F(ones - b'7' + 6),
        (b'2', b'0'..=b'1') => Base::F(ones - b'0' + 9),
        _ => Base::Unknown,
    }
}
