//! The top call: one run of the file manager over any devices.
#![tactic(auto)]

mod as_asked;
mod endings;
mod outcome;
mod run;
mod session;
mod words;

pub use outcome::Outcome;
pub use run::{Env, Gate, mc_run};
pub use words::{Beginning, Printed, Typed, beginning_of};
