//! Reads rows, each a box with keys or a box to be painted, and writes each with what the box answers
//! or how the screen looks.
#![tactic(auto)]

mod answers;
mod fields;
mod frames;
mod keys;
mod painting;
mod screens;

pub use keys::keys_of;
use rows_page::{Page, two_fields};
pub use screens::tell_screen;

/// Each row with what comes of it.
pub fn tell_rows(page: &mut Page, rows: &str) {
    for row in rows.lines() {
        page.put(row);
        page.put(" => ");
        tell_row(page, row);
        page.put("\n");
    }
}

/// What comes of a row: the word before its first bar says which box is asked or painted.
fn tell_row(page: &mut Page, row: &str) {
    let (asked, fields) = two_fields(row, '|');
    match asked.strip_prefix("painted ") {
        Some(kind) => painting::tell_painted(page, kind, fields),
        None => answers::tell_answer(page, asked, fields),
    }
}
