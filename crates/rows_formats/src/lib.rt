//! Reads rows, and writes each with what the libraries make of it: macros, extension files, hotlists,
//! patterns, tags, and the text of an editor.
#![tactic(auto)]

mod edited;
mod files;
mod fronts;
mod hotlists;
mod macros;
mod patterns;
mod rules;
mod tagged;

use rows_page::{Page, two_fields};

/// Each row with what comes of it.
pub fn tell_rows(page: &mut Page, rows: &str) {
    for row in rows.lines() {
        page.put(row);
        page.put(" => ");
        answer(page, row);
        page.put("\n");
    }
}

/// What comes of a row: the word before its first blank says whose call is made, the next up to a bar which.
fn answer(page: &mut Page, row: &str) {
    let (whose, call) = two_fields(row, ' ');
    match whose {
        "macros" => macros::answer(page, call),
        "rules" => rules::answer(page, call),
        "hotlist" => hotlists::answer(page, call),
        "pattern" => patterns::answer(page, call),
        "tags" => tagged::answer(page, call),
        "text" => edited::answer(page, call),
        _ => page.fail(),
    }
}
