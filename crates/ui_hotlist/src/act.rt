//! What a key comes to, and what is refused.
use mc_text::{Bytes, Text};

/// What a key comes to in the box of the hotlist.
#[derive(Debug, Drop)]
pub enum HotlistAct {
    /// The list is shown on.
    Stays,
    /// The list is shut.
    Leaves,
    /// The list is shut, and the current panel is to go to the folder to which this text leads.
    Goes(Text),
    /// An item was taken out: these bytes are to be saved as the hotlist's file.
    Saves(Bytes),
    /// That is refused, and all stays as it was.
    Refused(HotlistRefusal),
}

/// What the addition of a folder comes to.
#[derive(Debug, Drop)]
pub enum Addition {
    /// These bytes are to be saved as the hotlist's file.
    Saves(Bytes),
    /// The folder isn't added.
    Refused(HotlistRefusal),
}

/// Why a hotlist isn't changed.
#[derive(Clone, Copy, Debug, Drop, PartialEq, Eq)]
pub enum HotlistRefusal {
    /// The folder's path has a newline, and a line of the file can't.
    BadName,
    /// The file would have more bytes than are read of it: 1,048,576.
    TooLarge,
}
