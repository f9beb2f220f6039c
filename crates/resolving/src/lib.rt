//! Resolving: the path without links that a typed text leads to.
#![tactic(auto)]

mod ahead;
mod ending;
mod error;
mod home;
mod looking;
mod walking;

pub use error::ResolveError;
pub use home::with_home;
pub use walking::{Wanted, resolve};
