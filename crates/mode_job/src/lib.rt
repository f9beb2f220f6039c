//! The setting of a thing's mode, step by step: the mode is given, and then the thing itself is synced.
#![tactic(auto)]

mod calls;
mod dirty_setting;
mod setting;
mod work;

pub use calls::sync_thing;
pub use dirty_setting::{step_setting, wind_up_setting};
pub use setting::{ModeSetting, Stage};
