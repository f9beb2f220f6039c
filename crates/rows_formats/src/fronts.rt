//! Answers one after the other, of which only new ones are told.
use rows_page::Page;

/// Tells an answer with its number, if it isn't that of the number before.
pub fn tell_new(page: &mut Page, number: usize, answer: Page, last: &mut Page) {
    page.need(answer.is_whole());
    if answer.text() != last.text() {
        page.tell(format_args!("\n{number}: {}", answer.text()));
    }
    *last = answer;
}
