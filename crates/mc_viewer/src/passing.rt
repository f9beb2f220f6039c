//! Lines that end within a piece.
ghost use Rattle.std.specs.Prelude.{◌≡◌, ℕ, List, ◌+◌, ◌≤◌, length, take, drop};
ghost use Rattle.mc_viewer.specs.Rows.{line_behind};

use crate::units::rest_from;
use memchr::memchr;

/// How many bytes of a piece are passed, and behind how many more lines is what is looked for.
#[derive(Clone, Copy, Debug, Drop)]
pub struct Passed {
    pub bytes: usize,
    pub left: u64,
}

/// Passes so many lines, or the whole piece where fewer end in it.
pub fn pass_lines(piece: &[u8], lines: u64) -> Passed
    ensures way { (bytes : List ℕ) (count at : ℕ) → piece.now ≡ take count (drop at bytes)
        → line_behind lines bytes at ≡ line_behind result.left bytes (at + result.bytes) }
    ensures within { result.bytes ≤ length piece.now }
    ensures further { 1 ≤ lines → 1 ≤ length piece.now → 1 ≤ result.bytes }
{
    let mut at = 0;
    let mut left = lines;
    while left > 0 {
        let Some(newline) = memchr(b'\n', rest_from(piece, at)) else {
            return Passed {
                bytes: piece.len(),
                left,
            };
        };
        at += newline + 1;
        left -= 1;
    }
    Passed { bytes: at, left }
}
