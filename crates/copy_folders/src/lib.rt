//! The copy of a folder itself: it is made where it is missing, and when its children are copied it is
//! given its mode and synced; and the folders that are open while a tree is copied.
#![tactic(auto)]

mod around;
mod calls;
mod copy;
mod level;
mod stack;
mod stage;
mod work;

pub use copy::FolderCopy;
pub use level::{COPY_LEVELS, Level};
pub use stack::Stack;
pub use stage::{FolderDid, FolderStep, NamesState, Stage};
