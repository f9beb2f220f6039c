//! Plans: what a job will do, told before it does anything, and why it must not be begun.
#![tactic(auto)]

mod apart;
mod destination;
mod digest;
mod error;
mod job;
mod mask;
mod meeting;
mod naming;
mod plan;
mod request;
mod sources;

pub use error::PlanError;
pub use job::Job;
pub use mask::MaskPiece;
pub use meeting::meet;
pub use plan::{is_link_text, make_plan, plan_place};
pub use request::Request;
