//! The searches of a row.
use crate::files::bytes_spelled;
use mc_text::{Bytes, Text};
use mc_viewer::Search;
use rows_page::Page;

/// The search that a word names: `find:` and bytes, or `regex:` and a regular expression.
pub fn search_of(page: &mut Page, word: &str) -> Option<Search> {
    if let Some(bytes) = word.strip_prefix("find:") {
        return Some(Search::Plain(Bytes(bytes_spelled(page, bytes))));
    }
    let text = word.strip_prefix("regex:")?;
    Some(Search::Regex(Text::from_str(page.alloc(), text).ok()?))
}
