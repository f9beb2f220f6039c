//! The copy of a thing with all that lies in it, as a job works it: the machine of `copy_tree`, with the
//! list of dirty folders, and troubles that are passed over without a question.
#![tactic(auto)]

mod copy;
mod dirt;
mod laws;
mod leaving;
mod passing;
mod standing;
mod working;

pub use copy::SubtreeCopy;
pub use laws::{
    a_last_step_counts_its_calls, a_step_counts_its_calls, a_trouble_stands_where_the_copy_does,
    each_copy_is_steady, each_last_step_leaves_fewer, each_step_keeps_the_tree_known,
    each_step_leaves_fewer, last_steps_are_fewer, what_a_copy_reports, what_a_history_can_tell,
    what_a_merge_leaves, what_a_trouble_leaves, what_an_unbegun_copy_is, what_answers_leave,
};
