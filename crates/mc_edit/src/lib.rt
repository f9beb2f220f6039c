//! A text that is edited by commands, with a block, undo and redo.
#![tactic(auto)]

mod block;
mod brackets;
mod changes;
mod columns;
mod command;
mod editor;
mod error;
mod lines;
mod marked;
mod moves;
mod pages;
mod replacing;
mod units;

pub use block::Block;
pub use command::EditCmd;
pub use editor::{EditView, Editor, LARGEST_TEXT, UNDO_DEPTH};
pub use error::EditError;
pub use marked::MarkedColumns;
