//! What a panel shows of a folder: its items in an order, the columns of a format,
//! and the rows on the screen.
#![tactic(auto)]

mod arranging;
mod error;
mod format;
mod item;
mod layout;
mod listing;
mod looking;
mod painting;
mod parsing;
mod reading;
mod telling;
mod wish;
mod words;

pub use error::FormatError;
pub use format::{Column, FULL_FORMAT, Field, Format};
pub use item::{Item, LinkKind};
pub use listing::{Listing, ShownItems};
pub use painting::{Window, heading, rows};
pub use reading::read_listing;
pub use wish::{Order, Wish};
