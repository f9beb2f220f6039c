//! The save of a file: its bytes go to a part beside the target, which is synced and renamed over what
//! stands there, and the folder is synced. A save that dies leaves the target as it was or whole, and a
//! part file with a name of its own.
#![tactic(auto)]

mod laws;
mod looks;
mod piece;
mod save;
mod work;

pub use laws::{
    what_a_chunk_adds, what_a_crash_leaves_at_the_target, what_a_refused_call_keeps,
    what_placing_makes_of_the_target, what_the_making_of_the_part_keeps,
    what_the_removal_of_the_part_keeps, what_the_sync_of_the_folder_settles,
};
pub use save::FileSave;
