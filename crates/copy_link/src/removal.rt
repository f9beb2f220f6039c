//! The last try to remove the part of a copy whose job is to end.
use tree_trait::TreeError;

/// What the one try to remove a part came to.
#[derive(Clone, Copy, Debug, Drop, PartialEq, Eq)]
pub enum Removal {
    /// The part is gone.
    Cleaned,
    /// The part stays, since its removal was refused so.
    Stays(TreeError),
}

/// What a try to remove a part came to, and how many changing calls of the tree it made.
#[derive(Clone, Copy, Debug, Drop)]
pub struct RemovalStep {
    pub removal: Removal,
    pub calls: u64,
}
