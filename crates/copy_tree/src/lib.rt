//! The copy of a thing with all that lies in it, step by step, over any tree.
#![tactic(auto)]

mod asking;
mod copy;
mod due;
mod ending;
mod item;
mod laws;
mod looking;
mod making;
mod parts;
mod progress;
mod report;
mod skipping;
mod taking;
mod working;

pub use copy::{Named, Stage, TreeCopy};
pub use due::Due;
pub use item::ItemAtWork;
pub use laws::{
    a_copy_begins_in_its_place, a_copy_changes_targets_and_their_parts_alone,
    a_copy_keeps_to_its_place, a_made_folder_is_on_the_disk_before_it_is_filled,
    each_decision_leaves_fewer_things, skips_and_last_steps_keep_a_copy_in_its_place,
    what_is_at_work_lies_in_the_folder_that_is_worked,
};
pub use looking::{Taken, names_to_merge};
pub use progress::Progress;
