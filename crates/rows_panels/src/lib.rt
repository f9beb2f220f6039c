//! Rows of what panels read: where typed texts lead, listings of folders, and commands on two
//! panels, over trees in memory.
#![tactic(auto)]

mod commands;
mod folders;
mod formats;
mod frames;
mod home;
mod listed;
mod listings;
mod painted;
mod paired;
mod planted;
mod telling;
mod typed_texts;
mod wishes;

pub use folders::put_things;
pub use listed::tell_listings;
pub use paired::tell_pairs;
pub use typed_texts::tell_resolving;
