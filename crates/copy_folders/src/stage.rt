//! Where the copy of a folder stands, and what its steps report.
use job_reports::Trouble;
use mc_text::Path;

/// What is to be done next. A mode that is owed is the source's: the folder was made with the owner's
/// rights too, so that its children can be made in it.
#[derive(Clone, Copy, Debug, Drop, PartialEq, Eq)]
pub enum Stage {
    /// Nothing stands at the target. A folder is to be made, of a source with this mode.
    Make { mode: u16 },
    /// The folder stands. Its children are to be copied into it.
    Fill { owed: Option<u16> },
    /// Its children are decided. It is given the mode that is owed, and then its names are synced.
    Close { owed: Option<u16> },
    /// The folder was closed, or skipped with all below it.
    Done,
}

/// Whether the folder has a change of its names or its mode that no sync has brought onto the disk.
#[derive(Clone, Copy, Debug, Drop, PartialEq, Eq)]
pub enum NamesState {
    Synced,
    Dirty,
}

/// What a step did.
#[derive(Debug, Drop)]
pub enum FolderDid {
    /// The folder at this path was made, empty.
    Made(Path),
    /// The folder at this path was given the source's mode.
    Set(Path),
    /// What was changed in the folder, and its mode, are on the disk.
    Barrier,
    /// Nothing is owed to the folder.
    Closed,
    Troubled(Trouble),
}

/// What a step did, and how many changing calls of the tree it made.
#[derive(Debug, Drop)]
pub struct FolderStep {
    pub did: FolderDid,
    pub calls: u64,
}
