//! Rows of settings of modes over the tree in memory, and of what is asked and answered of items.
#![tactic(auto)]

mod answers;
mod asked;
mod images;
mod scene;
mod settings;
mod standing;
mod telling;
mod words;

pub use answers::tell_answers;
pub use settings::tell_settings;
