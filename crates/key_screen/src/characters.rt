//! The keys of one character, spelled in UTF-8, and the control keys.
ghost use Rattle.std.specs.Prelude.{◌≡◌, ◌+◌, ◌*◌, ◌-◌, ◌<◌, ◌≤◌, ◌⊎◌};
ghost use Rattle.key_screen.specs.KeySpelling.{character as character_of, ascii_base, is_second};
ghost use Rattle.key_screen.specs.KeySpelling.{is_tail, second_of_three, second_of_four};
ghost use Rattle.key_screen.specs.KeySpelling.{last_tail, two_tails, joined_code, CanEnd};

use crate::keys::Base;
use crate::spelling::{Spelling, ended};

/// What a byte that is no escape, and the bytes after it, spell.
pub fn character(meta: bool, first: u8, rest: &[u8]) -> Spelling
    ensures { result ≡ character_of meta first rest.now }
{
    match first {
        0..=0x7f => ended(meta, ascii(first), rest),
        0xc2..=0xdf => last(meta, u32::from(first - 0xc0), rest),
        0xe0..=0xef => three(meta, first, rest),
        0xf0..=0xf4 => four(meta, first, rest),
        _ => ended(false, Base::Unknown, rest),
    }
}

/// The key of a byte below 128 that is no escape.
fn ascii(byte: u8) -> Base
    requires { byte < 128 }
    ensures { result ≡ ascii_base byte }
{
    match byte {
        0x0d | 0x0a => Base::Enter,
        0x09 => Base::Tab,
        0x7f | 0x08 => Base::Backspace,
        0x01..=0x1a => Base::Ctrl(byte + 0x60),
        0x00..=0x1f => Base::Ctrl(byte + 0x40),
        _ => Base::Char(char::from(byte)),
    }
}

/// What the bytes after the first of a character of three spell.
fn three(meta: bool, first: u8, rest: &[u8]) -> Spelling
    requires lead { 224 ≤ first }
    requires three { first ≤ 239 }
    ensures { result ≡ second_of_three meta first rest.now }
{
    match rest {
        [] => Spelling::Partial,
        [byte, rest @ ..] if is_next(first, *byte) => last(meta, join(first - 0xe0, *byte), rest),
        _ => Spelling::Broken,
    }
}

/// What the bytes after the first of a character of four spell.
fn four(meta: bool, first: u8, rest: &[u8]) -> Spelling
    requires lead { 240 ≤ first }
    requires four { first ≤ 244 }
    ensures { result ≡ second_of_four meta first rest.now }
{
    match rest {
        [] => Spelling::Partial,
        [byte, rest @ ..] if is_next(first, *byte) => {
            last_two(meta, join(first - 0xf0, *byte), rest)
        }
        _ => Spelling::Broken,
    }
}

/// What the last two bytes of a character spell, after those that make this code.
fn last_two(meta: bool, code: u32, rest: &[u8]) -> Spelling
    requires low { 16 ≤ code }
    requires high { code < 272 }
    ensures { result ≡ two_tails meta code rest.now }
{
    match rest {
        [] => Spelling::Partial,
        [byte, rest @ ..] if goes_on(*byte) => last(
            meta,
            code * 64 + u32::from(*byte - 0x80),
            rest,
        ),
        _ => Spelling::Broken,
    }
}

/// What the last byte of a character spells, after those that make this code.
fn last(meta: bool, code: u32, rest: &[u8]) -> Spelling
    requires { CanEnd code }
    ensures { result ≡ last_tail meta code rest.now }
{
    match rest {
        [] => Spelling::Partial,
        [byte, rest @ ..] if goes_on(*byte) => {
            let code = code * 64 + u32::from(*byte - 0x80);
            match char::from_u32(code) {
                Some(c) => ended(meta, Base::Char(c), rest),
                None => unreachable!(),
            }
        }
        _ => Spelling::Broken,
    }
}

/// The code that the second byte of a character makes of the first one's bits.
fn join(bits: u8, byte: u8) -> u32
    requires bits { bits < 16 }
    requires tail { 128 ≤ byte }
    ensures { result ≡ joined_code bits byte }
{
    u32::from(bits) * 64 + u32::from(byte - 0x80)
}

/// Whether a byte goes on a character.
fn goes_on(byte: u8) -> bool
    ensures { result ≡ is_tail byte }
{
    matches!(byte, 0x80..=0xbf)
}

/// Whether a byte is the second of a character with this first byte.
fn is_next(first: u8, byte: u8) -> bool
    ensures { result ≡ is_second first byte }
{
    match first {
        0xe0 => matches!(byte, 0xa0..=0xbf),
        0xed => matches!(byte, 0x80..=0x9f),
        0xf0 => matches!(byte, 0x90..=0xbf),
        0xf4 => matches!(byte, 0x80..=0x8f),
        _ => goes_on(byte),
    }
}
