//! The page on which a program of rows writes what each row comes to, and the program that runs the rows of
//! its libraries section by section.
#![tactic(auto)]

mod fault;
mod fields;
mod page;
mod sections;

pub use fault::Fault;
pub use fields::{bytes_of, number, repeated, two_fields};
pub use page::Page;
pub use sections::{Sections, run};
use std::io::Read;

/// All rows, as they stand in the program's standard input.
pub fn all_rows(rt: &HostRuntime) -> Result<String, Fault> {
    let mut rows = String::new(rt.alloc());
    rt.reader().read_to_string(&mut rows)?;
    Ok(rows)
}

/// Prints what stands on a page; a fault where something was wanting.
pub fn print_page(rt: &HostRuntime, page: &Page) -> Result<(), Fault> {
    print!(rt; "{}", page.text())?;
    if page.is_whole() {
        Ok(())
    } else {
        Err(Fault::Row)
    }
}
