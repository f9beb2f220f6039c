//! What is kept of an entry: the step back from the state after it to the state before it. The state is the
//! newest path, and the counts of calls and faults.
use session_entries::Entry;

/// What a step did to the newest path.
#[derive(Clone, Copy, Debug, Drop, PartialEq, Eq)]
pub enum PathKind {
    Began,
    Placed,
    Removed,
    Made,
    Set,
    Kept,
    Cleaned,
}

/// What is kept of an entry.
#[derive(Clone, Copy, Debug, Drop)]
pub enum Delta {
    /// A step to the newest path. The path before shares so many bytes with it, and goes on with so many
    /// bytes, which are the last that are kept of paths.
    Named {
        job: u32,
        shared: u16,
        tail: u16,
        calls: u8,
        kind: PathKind,
    },
    /// A step that wrote so many bytes to a part.
    Chunk {
        job: u32,
        count: u32,
        calls: u8,
    },
    /// A step that was a barrier.
    Barrier {
        job: u32,
        calls: u8,
    },
    /// The entry stands whole, as the last of those that do.
    Whole,
}

/// An entry that stands whole, and the counts before it.
#[derive(Debug, Drop)]
pub struct WholeEntry {
    pub entry: Entry,
    pub calls: u64,
    pub faults: u64,
}
