//! Reads rows, and writes each with what comes of it: what is asked of items, and what answers to
//! questions and troubles decide.

use crate::asked::Asked;
use rows_page::Page;

/// Each row with what comes of it.
pub fn tell_answers(page: &mut Page, rows: &str) {
    for row in rows.lines() {
        page.put(row);
        page.put(" =>");
        tell_row(page, row);
        page.put("\n");
    }
}

/// What comes of a row: of its items, troubles and answers, in their order.
fn tell_row(page: &mut Page, row: &str) {
    let mut asked = Asked::new();
    for event in row.split(';') {
        page.put(" ");
        asked.tell(page, event.trim());
        page.put(";");
    }
}
