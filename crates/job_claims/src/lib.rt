//! What a job claims of the tree, and which claims clash.
#![tactic(auto)]

mod claim;
mod claiming;

pub use claim::{Claim, Claims};
pub use claiming::{claims, clash};
