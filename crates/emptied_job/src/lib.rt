//! The removal of a folder that a merge has emptied, step by step, with the list of dirty folders.
#![tactic(auto)]

mod dirty_removal;
mod removal;

pub use dirty_removal::{step_removal, wind_up_removal};
pub use removal::{FolderRemoval, RemovalStage};
