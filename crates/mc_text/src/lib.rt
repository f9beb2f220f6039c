//! Names, paths, and the small types that every crate of the file manager speaks of.
#![tactic(auto)]

mod columns;
mod drawing;
mod error;
mod kind;
mod lists;
mod name;
mod path;
mod permissions;
mod sizes;
mod text;
mod times;

pub use columns::{columns_of, fit, push_blanks, push_run};
pub use drawing::drawn;
pub use error::{NameError, NoMemory, PathError};
pub use kind::Kind;
pub use lists::{Bits, Lines, Names, Paths, Places, Rows, Texts};
pub use name::Name;
pub use path::Path;
pub use permissions::perm_text;
pub use sizes::size_text;
pub use text::{Bytes, Text};
pub use times::time_text;
