//! The search over the two halves of a text: in the first, over the seam, and in the second.
ghost use Rattle.std.specs.Prelude.{◌≡◌, ◌+◌, ◌-◌, ◌<◌, ◌≤◌, ◌++◌, length, nat_eq, max};
ghost use Rattle.std.specs.List.{starts_with};
ghost use Rattle.gap_text.specs.Places.{IsLeastPlace, IsLeastBetween};

use memchr::memmem;

/// The first place at or after `from` in `front` followed by `back` where the bytes stand.
pub fn place_in_halves(front: &[u8], back: &[u8], from: usize, bytes: &[u8]) -> Option<usize>
    requires { 0 < length bytes.now }
    ensures { IsLeastPlace (front.now ++ back.now) bytes.now from result }
{
    if let Some(at) = place_in_half(front, from, bytes) {
        return Some(at);
    }
    if let Some(at) = place_on_seam(front, back, from, bytes) {
        return Some(at);
    }
    let at = place_in_half(back, from.saturating_sub(front.len()), bytes)?;
    Some(front.len() + at)
}

/// The first place at or after `from` where the bytes stand whole within one half.
fn place_in_half(half: &[u8], from: usize, bytes: &[u8]) -> Option<usize>
    requires { 0 < length bytes.now }
    ensures { IsLeastPlace half.now bytes.now from result }
{
    if from > half.len() {
        return None;
    }
    let at = memmem::find(&half[from..], bytes)?;
    Some(from + at)
}

/// The first place at or after `from` from which the bytes would pass the end of
/// `front`, and where they stand.
fn place_on_seam(front: &[u8], back: &[u8], from: usize, bytes: &[u8]) -> Option<usize>
    requires { 0 < length bytes.now }
    ensures { let low = max from (length front.now + 1 - length bytes.now) in
        IsLeastBetween (front.now ++ back.now) bytes.now low (length front.now) result }
{
    let low = from.max((front.len() + 1).saturating_sub(bytes.len()));
    for at in low..front.len() {
        if stands_over(&front[at..], back, bytes) {
            return Some(at);
        }
    }
    None
}

/// Whether `front` followed by `back` begins with the bytes.
fn stands_over(front: &[u8], back: &[u8], bytes: &[u8]) -> bool
    requires { length front.now ≤ length bytes.now }
    ensures { result ≡ starts_with nat_eq (front.now ++ back.now) bytes.now }
{
    bytes.starts_with(front) && back.starts_with(&bytes[front.len()..])
}
