//! A text behind the word or the white space with which it begins.
ghost use Rattle.std.specs.Prelude.{◌≡◌, ◌++◌, ◌<◌, length, IfSome, option_map};
ghost use Rattle.text_scan.specs.Words.{behind_word, behind_indent, unindented_text};

/// The text behind a word with which it begins.
pub fn behind_word<'a>(text: &'a str, word: &str) -> Option<&'a str>
    ensures found { option_map (λ rest. rest.now) result ≡ behind_word word.now text.now }
    ensures parts { IfSome result (λ rest. text.now ≡ word.now ++ rest.now) }
{
    text.strip_prefix(word)
}

/// The text behind a blank or tab with which it begins.
pub fn behind_indent(text: &str) -> Option<&str>
    ensures found { option_map (λ rest. rest.now) result ≡ behind_indent text.now }
    ensures shorter { IfSome result (λ rest. length rest.now < length text.now) }
{
    if let Some(rest) = behind_word(text, " ") {
        return Some(rest);
    }
    match behind_word(text, "\t") {
        Some(rest) => Some(rest),
        None => None,
    }
}

/// The text without leading blanks and tabs.
pub fn unindented(text: &str) -> &str
    ensures { result.now ≡ unindented_text text.now }
{
    let mut words = text;
    while let Some(behind) = behind_indent(words) {
        words = behind;
    }
    words
}
