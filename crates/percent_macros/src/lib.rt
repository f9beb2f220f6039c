//! The macros of a command: `%f` and its like, prompts, and the quoting of names for the shell.
#![tactic(auto)]

mod context;
mod draft;
mod error;
mod expanding;
mod extension;
mod inserted;
mod macros;
mod pieces;
mod quoting;

pub use context::{Context, Side};
pub use error::MacroError;
pub use expanding::expand;
pub use pieces::{Expanded, Piece, Pieces};
pub use quoting::quote;
