//! The size of the screen that LINES and COLUMNS say.
use crate::rows::text_of;
use main_words::Size;
use mc_text::Text;
use rows_page::{Page, two_fields};

/// The size by these two, of which `-` is missing.
pub fn tell_size(page: &mut Page, said: &str) {
    let (lines, columns) = two_fields(said, ' ');
    let lines = variable(page, lines);
    let columns = variable(page, columns);
    let size = Size::read(&lines, &columns);
    page.tell(format_args!("{} by {}", size.lines(), size.columns()));
}

fn variable(page: &mut Page, said: &str) -> Option<Text> {
    match said {
        "-" => None,
        _ => Some(text_of(page, said)),
    }
}
