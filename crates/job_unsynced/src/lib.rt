//! What of the work of jobs no sync has brought onto the disk, and the reports of steps and last steps.
#![tactic(auto)]

mod changing;
mod dirty;
mod reports;

pub use changing::Readied;
pub use dirty::{Dirty, but_not};
pub use reports::{ended, last_report, refused, tried, with_call, without_call};
