//! Reads rows, and writes each with what comes of it: plans of requests, claims of
//! jobs, and claims that clash.
#![tactic(auto)]

mod fields;
mod jobs;
mod requests;
mod scenes;
mod telling;

use rows_page::{Page, two_fields};

/// Each row with what comes of it.
pub fn tell_rows(page: &mut Page, rows: &str) {
    for row in rows.lines() {
        page.put(row);
        page.put(" => ");
        tell_row(page, row);
        page.put("\n");
    }
}

/// What comes of a row. The word before its first bar says what is asked.
fn tell_row(page: &mut Page, row: &str) {
    let (asked, fields) = two_fields(row, '|');
    match asked {
        "claims" => jobs::tell_claims(page, fields),
        "clash" => jobs::tell_clash(page, fields),
        _ => scenes::tell_plan(page, asked, fields, row),
    }
}
