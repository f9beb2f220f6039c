//! The making of a folder or a link, step by step, with the list of dirty folders.
#![tactic(auto)]

mod dirty_making;
mod making;
mod new_thing;

pub use dirty_making::{step_making, wind_up_making};
pub use making::{MakingStage, ThingMaking};
pub use new_thing::NewThing;
