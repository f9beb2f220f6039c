//! What bytes are as the spelling of a key.
ghost use Rattle.std.specs.Prelude.{◌≡◌, ◌∷◌};
ghost use Rattle.key_screen.specs.KeySpelling.{spelling_of, escape_spelling, ends, key};

use crate::characters::character;
use crate::keys::{Base, Key};
use crate::sequences::{letter, sequence};

/// What bytes are as the spelling of a key: the front of one, one whole, or neither.
#[derive(Clone, Copy, Debug, PartialEq, Eq)]
pub enum Spelling {
    Partial,
    Whole(Key),
    Broken,
}

/// What these bytes spell.
pub fn spelled(bytes: &[u8]) -> Spelling
    ensures { result ≡ spelling_of bytes.now }
{
    match bytes {
        [] => Spelling::Partial,
        [0x1b, rest @ ..] => escape(rest),
        [first, rest @ ..] => character(false, *first, rest),
    }
}

/// What these bytes spell after an escape.
fn escape(bytes: &[u8]) -> Spelling
    ensures { result ≡ escape_spelling bytes.now }
{
    match bytes {
        [] => Spelling::Partial,
        [0x1b, rest @ ..] => ended(false, Base::Escape, rest),
        [b'[', rest @ ..] => sequence(rest),
        [b'O', rest @ ..] => letter(rest),
        [b'0', rest @ ..] => ended(false, Base::F(10), rest),
        [digit @ b'1'..=b'9', rest @ ..] => ended(false, Base::F(*digit - b'0'), rest),
        [first, rest @ ..] => character(true, *first, rest),
    }
}

/// A whole key, if no byte follows it.
pub fn ended(meta: bool, base: Base, rest: &[u8]) -> Spelling
    ensures { result ≡ ends (key meta base) rest.now }
{
    if rest.is_empty() {
        Spelling::Whole(Key { meta, base })
    } else {
        Spelling::Broken
    }
}
