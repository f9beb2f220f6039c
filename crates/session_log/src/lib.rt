//! The history of a session as it is written down, and what its newest entries tell.
#![tactic(auto)]

mod history;
mod log;

pub use history::{Entries, History};
pub use log::{Log, plain_entry};
