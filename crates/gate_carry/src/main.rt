//! Runs the rows of things that are carried to another mount: what each step reports, what stands at the end,
//! and what a crash may leave at each moment.
#![tactic(auto)]

mod images;
mod judging;
mod scene;
mod telling;

use rows_page::{Fault, Page, Sections, run};

/// The one section.
struct Carrying;

impl Sections for Carrying {
    fn tell(page: &mut Page, name: &str, rows: &str) {
        match name {
            "carrying" => scene::tell_rows(page, rows),
            _ => page.fail(),
        }
    }
}

fn main(rt: HostRuntime) -> Result<(), Fault> {
    run::<Carrying>(&rt)
}
