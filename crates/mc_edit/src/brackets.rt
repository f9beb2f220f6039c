//! Which bracket belongs to which.
ghost use Rattle.std.specs.Prelude.{◌≡◌, ◌+◌, ◌≤◌, ◌<◌, take, drop, reverse, length, IfSome};
ghost use Rattle.mc_edit.specs.Brackets.{closing_of, opening_of, partner_away};
ghost use Rattle.mc_edit.specs.Brackets.{place_behind, place_before, partner_of};

use gap_text::GapText;

/// The place of the bracket that belongs to the one at a place. Takes time linear in what lies between them.
pub fn partner_of(text: &GapText, at: usize) -> Option<usize>
    ensures value { result ≡ partner_of text.now.bytes at }
    ensures within { IfSome result (λ place. place ≤ length text.now.bytes) }
{
    if at >= text.len() {
        return None;
    }
    let byte = text.byte_at(at);
    if let Some(closing) = closing_of(byte) {
        return partner_behind(text, at, byte, closing);
    }
    let opening = opening_of(byte)?;
    partner_before(text, at, byte, opening)
}

fn closing_of(byte: u8) -> Option<u8>
    ensures { result ≡ closing_of byte }
{
    match byte {
        b'(' => Some(b')'),
        b'[' => Some(b']'),
        b'{' => Some(b'}'),
        _ => None,
    }
}

fn opening_of(byte: u8) -> Option<u8>
    ensures { result ≡ opening_of byte }
{
    match byte {
        b')' => Some(b'('),
        b']' => Some(b'['),
        b'}' => Some(b'{'),
        _ => None,
    }
}

/// The partner of an opening bracket, behind it.
fn partner_behind(text: &GapText, at: usize, ours: u8, partner: u8) -> Option<usize>
    requires { at < length text.now.bytes }
    ensures value { result ≡ place_behind at (partner_away ours partner 0 1 (drop
        (at + 1) text.now.bytes)) }
    ensures within { IfSome result (λ place. place ≤ length text.now.bytes) }
{
    let mut open = 0usize;
    let len = text.len();
    for place in at + 1..len {
        let byte = text.byte_at(place);
        if byte == ours {
            open += 1;
        } else if byte == partner {
            if open == 0 {
                return Some(place);
            }
            open -= 1;
        }
    }
    None
}

/// The partner of a closing bracket, before it.
fn partner_before(text: &GapText, at: usize, ours: u8, partner: u8) -> Option<usize>
    requires { at < length text.now.bytes }
    ensures value { result ≡ place_before at (partner_away ours partner 0 1 (reverse
        (take at text.now.bytes))) }
    ensures within { IfSome result (λ place. place ≤ length text.now.bytes) }
{
    let mut open = 0usize;
    let mut end = at;
    while end > 0 {
        end -= 1;
        let byte = text.byte_at(end);
        if byte == ours {
            open += 1;
        } else if byte == partner {
            if open == 0 {
                return Some(end);
            }
            open -= 1;
        }
    }
    None
}
