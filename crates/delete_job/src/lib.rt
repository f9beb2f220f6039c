//! The deletion of a thing with all that lies in it, a name a step, over any tree.
#![tactic(auto)]

mod deletion;
mod dirty_deletion;
mod ending;
mod looking;
mod meeting;
mod removing;
mod skipping;
mod working;

pub use deletion::{Deletion, Depth, Stage};
pub use dirty_deletion::TreeDeletion;
pub use looking::Found;
pub use meeting::Met;
