//! The carrying of a file or a link to another mount: it is copied by a part, the copy and its name are
//! brought onto the disk, and only then the source is removed, and its folder synced.
#![tactic(auto)]

mod beginning;
mod carrying;
mod file_copying;
mod laws;
mod link_copying;
mod removing;
mod skipping;
mod stage;
mod taking;
mod winding;
mod working;

pub use carrying::ThingCarrying;
pub use laws::what_comes_before_a_removal;
pub use stage::CarryStage;
