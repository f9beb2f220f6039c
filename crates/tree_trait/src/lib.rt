//! A tree of files: its names, its calls, and what a crash may leave of it; and the
//! other devices of a session.
#![tactic(auto)]

mod answered;
mod calls;
mod changing;
mod devices;
mod file_system;
mod laws;
mod list;
mod read_tree;
mod tree;

pub use answered::AnsweredCalls;
pub use calls::{Children, Meta, TreeError};
pub use changing::ChangingCall;
pub use devices::{
    Clock, Command, Commands, OUTPUT_BYTES, RunOutcome, Sink, SinkError, Source, SourceFault,
    SpawnError, Spawner,
};
pub use file_system::{FileSystem, Mount, NameEdit, Node};
pub use laws::{
    images_grow, names_after_a_crash, what_a_removal_shows, what_a_sync_settles, what_stays,
};
pub use list::Seq;
pub use read_tree::ReadTree;
pub use tree::Tree;
