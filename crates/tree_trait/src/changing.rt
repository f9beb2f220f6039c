//! The calls that change a tree, as values.
use crate::calls::TreeError;
use mc_text::Path;

/// A call that changes a tree or syncs a part of it, with what it was given.
#[derive(Clone, Copy, Drop)]
pub enum ChangingCall<'a> {
    MakeFile {
        path: &'a Path,
        mode: u16,
    },
    WriteAt {
        path: &'a Path,
        offset: u64,
        bytes: &'a [u8],
    },
    SetMode {
        path: &'a Path,
        mode: u16,
    },
    MakeFolder {
        path: &'a Path,
        mode: u16,
    },
    MakeLink {
        path: &'a Path,
        text: &'a str,
    },
    Rename {
        from: &'a Path,
        to: &'a Path,
    },
    RemoveFile(&'a Path),
    RemoveFolder(&'a Path),
    SyncFile(&'a Path),
    SyncFolder(&'a Path),
}

/// Such a call, and what it answered.
#[derive(Clone, Copy, Drop)]
pub(crate) struct AnsweredCall<'a> {
    pub call: ChangingCall<'a>,
    pub answer: Result<(), TreeError>,
}
