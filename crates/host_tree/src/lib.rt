//! The files of this machine, as a tree. What the machine does is trusted; proved is that the tree meets
//! its trait, and counts a fault before it answers one.
#![tactic(auto)]

mod kept;
mod kinds;
mod listing;
mod looking;
mod machine;
mod naming;
mod ranked;
mod reading;
mod real_path;
mod seen;
mod tree;
mod writing;

pub use tree::HostTree;
