//! The copy of one file: a part is made beside the target, filled, synced and renamed, and the folder is
//! synced. A copy that dies leaves the target as it was or whole, and a part file with a name of its own.
//! What stands at the target is replaced only under an answer.
#![tactic(auto)]

mod chunk;
mod copy;
mod item;
mod looks;
mod part_name;
mod place;
mod stage;
mod winding;
mod work;

pub use copy::FileCopy;
pub use item::CopyPaths;
pub use looks::{look, look_at_target};
pub use part_name::choose_part;
pub use stage::{FolderState, Next, SourceFacts, Stage};
