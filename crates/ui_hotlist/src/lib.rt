//! The hotlist on the screen: the box that lists its items, and the folder that is added to it.
#![tactic(auto)]

mod act;
mod adding;
mod command;
mod entering;
mod hotlist_box;
mod labels;
mod painting;
mod printing;

pub use act::{Addition, HotlistAct, HotlistRefusal};
pub use adding::add_folder;
pub use command::{HotlistCommand, hotlist_command};
pub use hotlist_box::HotlistBox;
