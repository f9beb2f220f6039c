//! The user's menu: its file, and which of its entries are shown.
#![tactic(auto)]

mod choosing;
mod condition;
mod error;
mod fact;
mod file;
mod holding;
mod line;
mod menu;
mod program;
mod pushing;
mod reading;
mod showing;
mod standing;
mod term;
mod types;
mod words;

pub use error::MenuError;
pub use fact::Fact;
pub use file::parse_menu;
pub use menu::{Menu, Shown};
pub use showing::shown;
