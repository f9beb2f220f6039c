//! The sources of a job: those that it is yet to take up, which comes next, and how the job
//! goes on after each step.
#![tactic(auto)]

mod later;
mod left;
mod sources;
mod turning;

pub use later::Later;
pub use sources::sources_in;
pub use turning::{Stepped, ended_without_memory, go_on};
