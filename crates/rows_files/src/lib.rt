//! Rows of copies and saves of one file over the tree in memory: what each step reports,
//! and what each crash leaves.
#![tactic(auto)]

mod copies;
mod images;
mod judging;
mod rows;
mod save_images;
mod save_scene;
mod save_telling;
mod saves;
mod scene;
mod shrunk;
mod telling;
mod wrong;

pub use copies::tell_copies;
pub use saves::tell_saves;
pub use telling::{AllFree, Answer};
