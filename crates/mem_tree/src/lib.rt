//! A tree in memory, with all that a crash may leave of it.
#![tactic(auto)]

mod calls;
mod choice;
mod copies;
mod counts;
mod image;
mod links;
mod make;
mod mounting;
mod names;
mod perform;
mod plan;
mod record;
mod step;
mod tree;

pub use choice::{Choice, Fill};
pub use tree::MemTree;
