//! What a job is asked, what its steps may report, and what changing calls in a row come to. No
//! machine is needed for these.
#![tactic(auto)]

mod answer;
mod calls;
mod job;
mod part_test;
mod question;
mod report;
mod row;
mod stop;
mod waits;

pub use answer::{Answer, AnswerError};
pub use calls::{remove_part, rename_thing, set_mode, sync_names};
pub use job::{Job, Pair, Pairs};
pub use part_test::PartTest;
pub use question::Question;
pub use report::{Cause, Did, Ending, LastStepResult, StepResult, Transfer, Trouble, is_end};
pub use row::{JobKind, JobRow, JobRows, JobState};
pub use stop::{
    Stop, after_calls, calls_made, made_or_stopped, missing_or_trouble, out_of_memory,
    reading_trouble, refusal_in, stopped_before, trouble_with_path,
};
pub use waits::Waits;
