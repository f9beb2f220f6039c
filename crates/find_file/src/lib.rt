//! Finding: what lies below a folder and has a name and a content, one thing after the other.
#![tactic(auto)]

mod content;
mod finder;
mod found;
mod marking;
mod opened;
mod search;
mod walk;

pub use finder::Finder;
pub use found::Found;
