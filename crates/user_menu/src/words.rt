//! The first word of a text.
ghost use Rattle.std.specs.Prelude.{◌≡◌};
ghost use Rattle.std.specs.List.{before_first, after_first};
ghost use Rattle.text_scan.specs.Words.{is_blank};
ghost use Rattle.user_menu.specs.Words.{first_word};
ghost use Rattle.user_menu.specs.WordViews.{word_view};

use text_scan::unindented;

/// A text's first word, and the text behind the blank or tab that ends it. A text of blanks has none.
pub fn first_word(text: &str) -> Option<(&str, &str)>
    ensures { word_view result ≡ first_word text.now }
{
    let words = unindented(text);
    if words.is_empty() {
        return None;
    }
    Some(cut_at_blank(words))
}

/// What stands before the first blank or tab, and what stands behind it.
fn cut_at_blank(words: &str) -> (&str, &str)
    ensures word { result.0.now ≡ before_first is_blank words.now }
    ensures behind { result.1.now ≡ after_first is_blank words.now }
{
    match words.split_once([' ', '\t']) {
        Some((word, behind)) => (word, behind),
        None => (words, ""),
    }
}
