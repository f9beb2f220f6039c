//! Text taken apart from its front: a character, a word, a line, what stands before a mark.
//! Contracts speak of bytes.
#![tactic(auto)]

ghost use Rattle.std.specs.Prelude.{◌≡◌, ◌+◌, ◌<◌, ◌≤◌, [], ◌∷◌, ◌++◌};
ghost use Rattle.std.specs.Prelude.{length, encode_utf8, IfSome, MatchOption};
ghost use Rattle.text_scan.specs.Lines.{IsWithout, lines_of};
ghost use Rattle.text_scan.specs.HighBytes.{AreHigh};

mod words;

pub use crate::words::{behind_indent, behind_word, unindented};

/// A text's first character, and the text behind it.
pub fn first_char(text: &str) -> Option<(char, &str)>
    ensures bytes { MatchOption result (text.now ≡ []) (λ (character, rest).
        text.now ≡ encode_utf8 character ++ rest.now) }
    ensures ascii { IfSome result (λ (character, rest). character < 128 → text.now ≡ character ∷ rest.now) }
    ensures high { IfSome result (λ (character, rest). 128 ≤ character → AreHigh (encode_utf8 character)) }
    ensures shorter { IfSome result (λ (character, rest). length rest.now < length text.now) }
{
    let mut characters = text.chars();
    match characters.next() {
        Some(character) => Some((character, characters.as_str())),
        None => None,
    }
}

/// What stands before the first mark of a text, and what stands behind it. The mark is ASCII.
pub fn split_at_mark(text: &str, mark: char) -> Option<(&str, &str)>
    requires { mark < 128 }
    ensures found { MatchOption result (IsWithout mark text.now)
        (λ (before, behind). IsWithout mark before.now × (text.now ≡ before.now ++ mark ∷ behind.now)) }
    ensures shorter { IfSome result
        (λ (before, behind). length before.now + length behind.now + 1 ≡ length text.now) }
{
    text.split_once(mark)
}

/// What stands before the last mark of a text, and what stands behind it. The mark is ASCII.
pub fn split_at_last_mark(text: &str, mark: char) -> Option<(&str, &str)>
    requires { mark < 128 }
    ensures found { MatchOption result (IsWithout mark text.now)
        (λ (before, behind). IsWithout mark behind.now × (text.now ≡ before.now ++ mark ∷ behind.now)) }
{
    text.rsplit_once(mark)
}

/// A text's first line without its newline, and the text behind that. An empty text has no line.
pub fn first_line(text: &str) -> Option<(&str, &str)>
    ensures first { MatchOption result (text.now ≡ []) (λ (line, rest).
        lines_of text.now ≡ line.now ∷ lines_of rest.now) }
    ensures whole { IfSome result (λ (line, rest). IsWithout 10 line.now) }
    ensures shorter { IfSome result (λ (line, rest). length rest.now < length text.now) }
{
    if text.is_empty() {
        return None;
    }
    match split_at_mark(text, '\n') {
        Some((line, rest)) => Some((line, rest)),
        None => Some((text, "")),
    }
}
