//! The hotlist: a list of folders in groups, its file, and the places in it.
#![tactic(auto)]

mod copying;
mod draft;
mod edit;
mod error;
mod file;
mod items;
mod lines;
mod list;
mod places;
mod print;

pub use error::{HotEditError, HotError};
pub use file::parse_hotlist;
pub use items::HotItem;
pub use list::Hotlist;
pub use print::print_hotlist;
