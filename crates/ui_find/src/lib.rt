//! What stands on the screen while things are sought: the lines that ask for what, and then the
//! list of the found paths.
#![tactic(auto)]

mod act;
mod asking;
mod command;
mod findings;
mod frame;
mod listing;
mod mode;
mod starting;
mod title;

pub use act::{FindAct, FindRefusal};
pub use asking::{Asked, Asking};
pub use command::{FindCommand, find_command};
pub use findings::{Course, Findings};
pub use listing::Listing;
pub use mode::FindMode;
