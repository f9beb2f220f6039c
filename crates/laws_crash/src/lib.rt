//! Laws of what a crash leaves while several jobs change a tree, in any order of their steps. The functions
//! do nothing: their contracts are laws of the definitions in `specs/`.
#![tactic(auto)]

mod done_calls;
mod live_jobs;
mod moved_things;
mod names_of_jobs;
mod possible_paths;
mod quiet_calls;
mod simple_sessions;

pub use done_calls::{
    what_a_call_to_make_keeps, what_a_call_to_remove_keeps, what_a_call_to_rename_keeps,
    what_a_call_to_sync_settles,
};
pub use live_jobs::{
    what_a_calm_step_keeps, what_a_crash_leaves, what_a_mode_of_a_job_keeps,
    what_a_step_of_a_job_keeps, what_another_job_sees, what_happens_meanwhile,
    what_holds_at_an_opening, what_is_known_of_nodes, what_stays_while_others_work,
    where_a_job_may_begin, where_paths_come_to_rest,
};
pub use moved_things::{what_is_moved_stays_whole, what_meets_no_moved_thing};
pub use names_of_jobs::{
    what_a_making_is, what_a_placing_is, what_a_removal_is, what_a_renaming_is,
    what_is_known_below_a_path, what_names_a_moved_thing_has,
};
pub use possible_paths::{
    what_a_change_of_names_keeps, what_a_path_holds, what_a_quiet_step_keeps, where_a_path_leads,
    where_work_is_over,
};
pub use quiet_calls::{
    what_a_mode_leaves, what_a_setting_of_a_mode_keeps, what_a_sync_keeps,
    what_a_sync_of_a_file_settles, what_a_sync_of_a_folder_settles, what_a_write_keeps,
    what_another_mode_keeps, what_is_gone, what_is_not_altered, what_is_settled_below,
};
pub use simple_sessions::{
    what_a_crash_leaves_of_deletions, what_a_crash_leaves_of_none, what_a_crash_leaves_of_one_job,
};
