//! A text's first character, and what follows it.
ghost use Rattle.std.specs.Prelude.{◌≡◌, ◌<◌, [], ◌∷◌, ◌++◌, length, chars, encode_utf8, IfSome, MatchOption};

/// The first character of a text and the text behind it.
pub fn first_char(text: &str) -> Option<(char, &str)>
    ensures first { MatchOption result (chars text.now ≡ []) (λ first.
        chars text.now ≡ first.0 ∷ chars first.1.now) }
    ensures bytes { IfSome result (λ first. text.now ≡ encode_utf8 first.0 ++ first.1.now) }
    ensures shorter { MatchOption result (text.now ≡ []) (λ first. length first.1.now < length text.now) }
{
    let mut characters = text.chars();
    match characters.next() {
        Some(character) => Some((character, characters.as_str())),
        None => None,
    }
}
