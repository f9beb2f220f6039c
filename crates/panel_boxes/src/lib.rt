//! The boxes of the panels: which key opens which, what each makes of a key, and how it is painted.
#![tactic(auto)]

mod answering;
mod opening;
mod options;
mod painting;
mod panel_box;
mod typed;

pub use opening::{Opening, opening_of};
pub use panel_box::{Asked, PanelBox, PanelReply};
