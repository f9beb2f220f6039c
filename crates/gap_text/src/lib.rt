//! A text that is edited at one point, and the history of its changes.
#![tactic(auto)]

mod bytes;
mod change;
mod gap;
mod line_counts;
mod places;
mod text;
mod undo;

pub use change::Change;
pub use line_counts::LineMark;
pub use text::GapText;
pub use undo::Undo;
