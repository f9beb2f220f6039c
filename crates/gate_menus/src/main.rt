//! Runs rows of the hotlist's box and of the menu's box, by keys.
#![tactic(auto)]

mod hotlists;
mod menus;
mod panels;

use rows_page::{Fault, Page, Sections, run};

/// What the rows of each section are told by.
struct Boxes;

impl Sections for Boxes {
    fn tell(page: &mut Page, name: &str, rows: &str) {
        match name {
            "hotlist" => hotlists::tell_rows(page, rows),
            "menu" => menus::tell_rows(page, rows),
            _ => page.fail(),
        }
    }
}

fn main(rt: HostRuntime) -> Result<(), Fault> {
    run::<Boxes>(&rt)
}
