//! Questions before a thing is replaced, what may be answered to them and to troubles, and what answers
//! for all later items decide.
#![tactic(auto)]

mod answer;
mod placing;
mod replies;
mod skips;

pub use answer::{Then, Waiting, then_after, waiting_in};
pub use placing::{Origin, Placing, placing_of};
pub use replies::{Decision, ItemAnswer, Replies, Rule};
pub use skips::{CauseKind, SkippedRefusals, Skips, kind_of};
