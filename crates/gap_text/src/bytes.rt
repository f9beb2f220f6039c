//! The search for one byte over the two halves of a text.
ghost use Rattle.std.specs.Prelude.{◌+◌, ◌-◌, ◌≤◌, ◌++◌, length, take};
ghost use Rattle.memchr.specs.Find.{IsFirst, IsLast, Passes, is_byte};

use memchr::{memchr, memrchr};

/// The first place at or after `from` in `front` followed by `back` where the byte stands.
pub fn byte_in_halves(front: &[u8], back: &[u8], from: usize, byte: u8) -> Option<usize>
    requires { from ≤ length (front.now ++ back.now) }
    ensures { IsFirst (Passes (is_byte byte) (front.now ++ back.now)) from
        (length (front.now ++ back.now)) result }
{
    if from < front.len() {
        if let Some(at) = byte_in_half(front, from, byte) {
            return Some(at);
        }
    }
    let at = byte_in_half(back, from.saturating_sub(front.len()), byte)?;
    Some(front.len() + at)
}

/// The last place before `to` in `front` followed by `back` where the byte stands.
pub fn last_byte_in_halves(front: &[u8], back: &[u8], to: usize, byte: u8) -> Option<usize>
    requires { to ≤ length (front.now ++ back.now) }
    ensures { IsLast (Passes (is_byte byte) (front.now ++ back.now)) 0 to result }
{
    if to > front.len() {
        if let Some(at) = memrchr(byte, &back[..to - front.len()]) {
            return Some(front.len() + at);
        }
    }
    memrchr(byte, &front[..to.min(front.len())])
}

/// The first place at or after `from` in one half.
fn byte_in_half(half: &[u8], from: usize, byte: u8) -> Option<usize>
    requires { from ≤ length half.now }
    ensures { IsFirst (Passes (is_byte byte) half.now) from (length half.now) result }
{
    let at = memchr(byte, &half[from..])?;
    Some(from + at)
}
