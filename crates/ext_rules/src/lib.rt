//! The extension file: which command opens, views or edits which file.
#![tactic(auto)]

mod act;
mod actions;
mod condition;
mod error;
mod file;
mod line;
mod rule;

pub use act::{Act, action};
pub use error::ExtError;
pub use file::{Rules, parse_ext};
