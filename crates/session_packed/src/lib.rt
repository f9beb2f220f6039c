//! The entries of a history, kept in little memory. Contracts see the list of them.
#![tactic(auto)]

mod block;
mod delta;
mod entries;
mod met;
mod reader;
mod short;
mod walk;
mod walks;

pub use entries::PackedEntries;
pub use met::Met;
pub use walks::{NewestFirst, OldestFirst};
