//! What a key comes to.
use mc_edit::EditError;
use mc_text::Bytes;

/// What a key comes to, while a file is edited.
#[derive(Debug, Drop)]
pub enum EditorAct {
    /// The file is edited on.
    Stays,
    /// The text was refused what the key wanted of it. Never for want of memory,
    /// which is an error of its own.
    Refused(EditError),
    /// The caller is asked for something.
    Asks(EditorAsks),
    /// A save was wanted while one goes on: none is asked for.
    Waits,
}

/// What the caller is asked for.
#[derive(Debug, Drop)]
pub enum EditorAsks {
    /// These bytes are to be saved as the file that is edited. The editor is told when that is
    /// finished, or has failed.
    Save(Bytes),
    /// The editor is to be left.
    Leave,
}
