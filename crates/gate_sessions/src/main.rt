//! Whole runs over devices in memory: of each its tree, devices, folder, words and keys, and what comes of
//! them. The rows stand in `stdin`, the expected lines in `stdout`, written from the rules. Behind them
//! stands every moment of the sessions of `rows_crashes`.
#![tactic(auto)]

mod frames;
mod rows;
mod running;
mod scenes;
mod sizes;
mod telling;

use rows_page::{Fault, Page, all_rows, print_page};

fn main(rt: HostRuntime) -> Result<(), Fault> {
    let rows = all_rows(&rt)?;
    let mut page = Page::new(rt.alloc());
    tell_all(&mut page, rows.as_str());
    print_page(&rt, &page)
}

/// What comes of each row, how the frames of a screen that fails begin, and what crashes leave.
fn tell_all(page: &mut Page, rows: &str) {
    for row in rows.lines() {
        page.put(row);
        page.put("\n  ");
        tell_row(page, row);
        page.put("\n");
    }
    frames::tell_cut_frames(page);
    rows_crashes::tell_walks(page);
}

/// What comes of a row: of a size, or of a run.
fn tell_row(page: &mut Page, row: &str) {
    match row.strip_prefix("size of ") {
        Some(said) => sizes::tell_size(page, said),
        None => rows::tell_run(page, row),
    }
}
