//! The state of a panel: a folder's listing, a cursor, tags and the folders that were shown, and
//! what each key makes of it.
#![tactic(auto)]

mod arranging;
mod comparing;
mod format;
mod fresh;
mod going;
mod hiding;
mod kept;
mod panel;
mod reading;
mod rereading;
mod scrolling;
mod searching;
mod selecting;
mod visits;
mod wanted;
mod window;

pub use arranging::Arrangement;
pub use comparing::compare_panels;
pub use format::{Layout, PanelFormat};
pub use fresh::Fresh;
pub use going::Going;
pub use hiding::HiddenPlan;
pub use panel::Panel;
pub use rereading::Attempt;
pub use visits::Turn;
pub use window::{Mark, View};
