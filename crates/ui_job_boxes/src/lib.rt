//! The boxes of jobs: how each opens, what a key comes to in it, and how it is painted.
#![tactic(auto)]

mod answering;
mod deleting;
mod job_box;
mod keys;
mod lines;
mod live_jobs;
mod opening;
mod painting;
mod plan_of;
mod planning;
mod setting;

pub use job_box::{JobBox, JobReply, MaskedSource, Surroundings};
