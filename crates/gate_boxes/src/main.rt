//! Runs the rows of boxes, texts, menus and lists of jobs.
#![tactic(auto)]

use rows_page::{Fault, Page, Sections, run};

/// The libraries of rows, by the names of their sections.
struct Libraries;

impl Sections for Libraries {
    fn tell(page: &mut Page, name: &str, rows: &str) {
        match name {
            "boxes" => rows_boxes::tell_rows(page, rows),
            "texts" => rows_texts::tell_rows(page, rows),
            "menus" => rows_menus::tell_rows(page, rows),
            "jobs" => rows_menus::tell_job_rows(page, rows),
            _ => page.fail(),
        }
    }
}

fn main(rt: HostRuntime) -> Result<(), Fault> {
    run::<Libraries>(&rt)
}
