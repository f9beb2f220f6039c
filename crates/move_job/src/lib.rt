//! The move of a thing, of a folder with all that lies in it, to another path on its mount, step by step,
//! with the list of dirty folders.
#![tactic(auto)]

mod dirty_moving;
mod moving;
mod stages;
mod taking;

pub use dirty_moving::{step_moving, wind_up_moving};
pub use moving::{MovingStage, ThingMoving};
