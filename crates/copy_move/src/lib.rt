//! Jobs that change the tree, step by step.
#![tactic(auto)]

mod owed;
mod run;
mod starting;
mod work;

pub use job_reports::PartTest;
pub use job_unsynced::Dirty;
pub use run::{Course, Halt, Run};
pub use work::Work;
