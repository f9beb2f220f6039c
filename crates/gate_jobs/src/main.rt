//! Runs the rows of formats, the tree in memory, plans, copies, resolving, listings,
//! answers, modes and saves.
#![tactic(auto)]

use rows_page::{Fault, Page, Sections, run};

/// The libraries of rows, by the names of their sections.
struct Libraries;

impl Sections for Libraries {
    fn tell(page: &mut Page, name: &str, rows: &str) {
        match name {
            "formats" => rows_formats::tell_rows(page, rows),
            "trees" => rows_mem_tree::tell_rows(page, rows),
            "plans" => rows_plans::tell_rows(page, rows),
            "copies" => rows_files::tell_copies(page),
            "resolving" => rows_panels::tell_resolving(page, rows),
            "listings" => rows_panels::tell_listings(page, rows),
            "answers" => rows_jobs::tell_answers(page, rows),
            "modes" => rows_jobs::tell_settings(page, rows),
            "saving" => rows_files::tell_saves(page, rows),
            _ => page.fail(),
        }
    }
}

fn main(rt: HostRuntime) -> Result<(), Fault> {
    run::<Libraries>(&rt)
}
