//! The list of the live jobs: what it shows of them, and what its keys come to.
#![tactic(auto)]

mod act;
mod command;
mod line;
mod list;
mod painting;

pub use act::JobsAct;
pub use command::{JobsCommand, jobs_command};
pub use list::JobList;
