//! The terminal: its bytes cut into keys, and the cells of its screen.
#![tactic(auto)]

mod cells;
mod characters;
mod control;
mod drawn;
mod grid;
mod keys;
mod laws;
mod reader;
mod sequences;
mod spelling;
mod terminal;

pub use cells::{Attr, Cell, Glyph};
pub use grid::{Grid, GridError};
pub use keys::{Base, Fed, Key};
pub use laws::{keys_have_one_cut, keys_survive_any_pieces};
pub use reader::KeyReader;
pub use terminal::read_grid;
