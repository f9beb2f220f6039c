//! The reader that cuts the bytes of the terminal into keys.
ghost use Rattle.std.specs.Prelude.{◌≡◌, ◌≤◌, [], ◌∷◌, ◌++◌, length, IsSome};
ghost use Rattle.key_screen.specs.DecodedKeys.{decoded_keys, keys_fed, IsUnknownFirst};
ghost use Rattle.key_screen.specs.DecodedKeys.{IsFedAfresh, keys_completed};
ghost use Rattle.key_screen.specs.KeySpelling.{unknown};

use crate::keys::{Base, Fed, Key};
use crate::spelling::{Spelling, spelled};
use std::marker::Model;

/// The most bytes of a key: an escape, `[`, 16 parameters and the last.
const KEY_BYTES: usize = 19;

/// Cuts bytes into keys, one byte at a time. Contracts see it as the bytes since the last key.
#[derive(Debug, Drop)]
pub struct KeyReader {
    bytes: [u8; KEY_BYTES],
    count: usize,
}

impl Model for KeyReader {
    ghost use Rattle.std.specs.Prelude.{ℕ, List, take, ◌≡◌, ◌<◌};
    ghost use Rattle.key_screen.specs.KeySpelling.{spelling_of};
    ghost use Rattle.key_screen.specs.declared.spelling.Spelling.TheVariants.{Partial};

    ghost Value = { List ℕ };

    ghost view = { λ r. take r.count r.bytes };

    ghost invariant = { λ r. (r.count < 19) × (spelling_of (take r.count r.bytes) ≡ Partial) };
}

impl KeyReader {
    /// At the start of a key.
    pub fn new() -> KeyReader
        ensures { result ≡ [] }
    {
        KeyReader {
            bytes: [0; KEY_BYTES],
            count: 0,
        }
    }

    /// Reads a byte. It takes no memory, and looks at no more than the bytes of a key.
    pub fn feed(&mut self, byte: u8) -> Fed
        // The keys of the bytes since the last key and this one, and what of them is left.
        ensures keys { decoded_keys (self.old ++ byte ∷ [])
            ≡ record { keys = keys_fed result; rest = self.new } }
        ensures first_of_two { IsSome result.second → IsUnknownFirst result }
        ensures bounded { length self.new ≤ 18 }
    {
        self.bytes[self.count] = byte;
        match spelled(&self.bytes[..self.count + 1]) {
            Spelling::Partial => {
                self.count += 1;
                none()
            }
            Spelling::Whole(key) => {
                self.count = 0;
                one(key)
            }
            Spelling::Broken => self.feed_afresh(byte),
        }
    }

    /// Reads a byte that can't go on the bytes before it, which are then one unknown key.
    fn feed_afresh(&mut self, byte: u8) -> Fed
        ensures keys { IsFedAfresh byte result self.new }
        ensures first_of_two { IsUnknownFirst result }
        ensures bounded { length self.new ≤ 1 }
    {
        self.bytes[0] = byte;
        match spelled(&self.bytes[..1]) {
            Spelling::Partial => {
                self.count = 1;
                one(UNKNOWN)
            }
            Spelling::Whole(key) => {
                self.count = 0;
                two(key)
            }
            Spelling::Broken => unreachable!(),
        }
    }

    /// How many bytes came since the last key.
    pub fn pending(&self) -> usize
        ensures { result ≡ length self.now }
    {
        self.count
    }
}

/// The key of bytes that spell no other.
const UNKNOWN: Key = Key {
    meta: false,
    base: Base::Unknown,
};

/// The byte completes no key.
fn none() -> Fed
    ensures { result ≡ keys_completed None None }
{
    Fed {
        first: None,
        second: None,
    }
}

/// The byte completes a key.
fn one(key: Key) -> Fed
    ensures { result ≡ keys_completed (Some key) None }
{
    Fed {
        first: Some(key),
        second: None,
    }
}

/// The byte ends an unknown key, and is a key.
fn two(key: Key) -> Fed
    ensures { result ≡ keys_completed (Some unknown) (Some key) }
{
    Fed {
        first: Some(UNKNOWN),
        second: Some(key),
    }
}
