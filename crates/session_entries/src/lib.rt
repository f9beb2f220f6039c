//! What a session writes down of itself.
#![tactic(auto)]

mod history;
mod refusal;

pub use history::{Entry, Event, JobOrder};
pub use refusal::{BeginError, PlanError, Refusal, Refusals, TypedError};
