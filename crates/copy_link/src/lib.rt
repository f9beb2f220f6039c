//! The copy of a link: a link with the source's text is made at a part beside the target and renamed,
//! and the folder is synced.
#![tactic(auto)]

mod calls;
mod copy;
mod places;
mod removal;
mod stage;
mod work;

pub use copy::LinkCopy;
pub use removal::{Removal, RemovalStep};
pub use stage::{Next, Stage};
