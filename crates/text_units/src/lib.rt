//! What a unit of a text shows: itself, blanks for a tab, and else a dot; in which columns; and what of it
//! is in sight. And what a byte shows: rows in hexadecimal.
#![tactic(auto)]

mod columns;
mod hexadecimal;
mod pieces;

pub use columns::unit_columns;
pub use hexadecimal::hex_row;
pub use pieces::{Sight, push_piece};
