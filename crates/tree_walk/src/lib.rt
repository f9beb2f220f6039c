//! The open folders of a walk over all that lies below a thing, and how many steps such
//! a walk has left at most.
#![tactic(auto)]

mod around;
mod opened;
mod walk;

pub use around::Around;
pub use opened::Opened;
pub use walk::{WALK_LEVELS, Walk};
