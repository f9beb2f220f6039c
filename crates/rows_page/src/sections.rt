//! A program of rows: it runs the rows of its libraries section by section. The rows stand in `stdin`, each
//! section behind a line with two signs `=` and its name; what is expected of them stands in `stdout`.

use crate::fault::Fault;
use crate::fields::two_fields;
use crate::page::Page;
use crate::{all_rows, print_page};

/// The libraries that a program runs.
pub trait Sections {
    /// Tells what the rows of a section come to. Where no section has this name the page fails.
    fn tell(page: &mut Page, name: &str, rows: &str);
}

/// Runs all sections, and prints what they come to.
pub fn run<S: Sections>(rt: &HostRuntime) -> Result<(), Fault> {
    let rows = all_rows(rt)?;
    let mut page = Page::new(rt.alloc());
    tell_sections::<S>(&mut page, rows.as_str());
    print_page(rt, &page)
}

fn tell_sections<S: Sections>(page: &mut Page, rows: &str) {
    for section in rows.split("== ").skip(1) {
        let (name, rows) = two_fields(section, '\n');
        page.tell(format_args!("== {name}\n"));
        S::tell(page, name, rows);
    }
}
