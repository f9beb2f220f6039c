//! The things that are selected, and the plan of the job that a box confirms.
#![tactic(auto)]

mod carrying;
mod choosing;
mod home;
mod new_folder;
mod new_link;
mod new_place;
mod refused;

pub use carrying::{JobPlan, deletion_of, mode_setting_of, plan_carry};
pub use choosing::{Choice, Opens, choose};
pub use new_folder::plan_folder;
pub use new_link::plan_link;
