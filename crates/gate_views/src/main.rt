//! Runs the rows of the viewer, searches below a folder, the two panels, the editor, and copies of subtrees.
#![tactic(auto)]

use rows_page::{Fault, Page, Sections, run};

/// The libraries of rows, by the names of their sections.
struct Libraries;

impl Sections for Libraries {
    fn tell(page: &mut Page, name: &str, rows: &str) {
        match name {
            "viewer" => rows_viewer::tell_rows(page, rows),
            "viewing" => rows_viewer::tell_key_rows(page, rows),
            "finding" => rows_finding::tell_rows(page, rows),
            "panels" => rows_panels::tell_pairs(page, rows),
            "editor" => rows_editor::tell_rows(page, rows),
            "subtrees" => rows_subtrees::tell_rows(page, rows),
            _ => page.fail(),
        }
    }
}

fn main(rt: HostRuntime) -> Result<(), Fault> {
    run::<Libraries>(&rt)
}
