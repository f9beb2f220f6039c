//! Plays scripts on short texts, row by row, and writes what stands after each command; then
//! what comes of the limits.
#![tactic(auto)]

mod commands;
mod limits;
mod scripts;

use rows_page::{Page, two_fields};

/// Each row, a text and the commands that are played on it, with what stands after each command;
/// then a line for each limit.
pub fn tell_rows(page: &mut Page, rows: &str) {
    for row in rows.lines() {
        let (text, script) = two_fields(row, ';');
        page.put(row);
        page.put(": ");
        scripts::tell_played(page, text, script);
        page.put("\n");
    }
    limits::tell_limits(page);
}
