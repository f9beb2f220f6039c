//! Where the copy of a file stands.
use mc_text::Path;

/// What the source was said to be when the part was made: its bytes and its mode.
#[derive(Clone, Copy, Debug, Drop, PartialEq, Eq)]
pub struct SourceFacts {
    pub size: u64,
    pub mode: u16,
}

/// What comes after a part was removed.
#[derive(Clone, Copy, Debug, Drop, PartialEq, Eq)]
pub enum Next {
    /// The copy is begun again, at the first byte.
    Begin,
    /// The file was skipped.
    Decided,
}

/// What is to be done next.
#[derive(Debug, Drop)]
pub enum Stage {
    /// No part stands. Source and target are to be looked at, and the part is to be made.
    Begin,
    /// The part holds the first bytes of the source. When it has all, it is synced before it is renamed, so
    /// that no crash leaves half a target.
    Fill {
        part: Path,
        facts: SourceFacts,
        done: u64,
    },
    /// The part is to be removed.
    Clean {
        part: Path,
        next: Next,
    },
    /// The part could not be removed in the last steps. It stays.
    Left {
        part: Path,
    },
    /// The file was placed or skipped.
    Decided,
}

/// Whether the target's folder has a change of names that no sync has brought onto the disk.
#[derive(Clone, Copy, Debug, Drop, PartialEq, Eq)]
pub enum FolderState {
    Synced,
    Dirty,
}
