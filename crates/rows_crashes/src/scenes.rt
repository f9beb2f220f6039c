//! The sessions: the trees that they begin with, and their keys.

/// A session that is walked.
#[derive(Clone, Copy)]
pub enum Scene {
    /// Of two files one is deleted.
    Deletion,
    /// A folder is deleted, and the file in it; the file beside it is not.
    Folder,
    /// A file is copied from one folder into the other.
    Copy,
    /// It is copied over another file, which the answer to the question allows.
    Overwriting,
    /// A link is copied over a file, which the answer to the question allows.
    LinkOver,
    /// Two files are deleted. The sync after the first is refused, and so is that of its last steps;
    /// the second job makes it.
    LeftFolder,
    /// A file is copied. The sync after it came to its name is refused, and so is that of the last steps.
    /// The second job, which deletes the source, makes it before that.
    LeftTarget,
    /// A folder is made.
    NewFolder,
    /// Two folders are made. The sync after the first is refused, and so is that of its last steps;
    /// the second job makes it.
    LeftNewFolder,
    /// A link is made.
    NewLink,
    /// A file is given the mode 600.
    Mode,
    /// Two files are given the mode 600. The sync of the first is refused, and so is that of its last
    /// steps; the second job makes it.
    LeftMode,
    /// A folder of mode 555 is copied with a file and a link in it.
    Tree,
    /// A file is moved from one folder into the other.
    Move,
    /// It is moved over another file, which the answer to the question allows.
    MoveOver,
    /// A file is moved. The sync of its new folder is refused, and so are those of both folders in the last
    /// steps. The second job, which deletes the file, makes both before that.
    LeftMove,
    /// A folder is moved with a file and a link in it.
    FolderMove,
    /// It is moved, and the syncs are refused likewise. The second job, which deletes the file in
    /// it, makes both before that.
    LeftFolderMove,
    /// It is moved onto a folder, which the answer to the question allows to replace a file there.
    Merge,
    /// It is moved onto a folder where that file stays, so the link that would replace it
    /// stays, and the folder with it.
    KeptMerge,
}

impl Scene {
    /// What is done in the session.
    pub fn title(self) -> &'static str {
        match self {
            Scene::Deletion => "/a/x is deleted",
            Scene::Folder => "/a/d is deleted with /a/d/x",
            Scene::Copy => "/s/e is copied into /t",
            Scene::Overwriting => "/s/e is copied over /t/e",
            Scene::LinkOver => "/s/l, a link, is copied over /t/l, a file",
            Scene::LeftFolder => "/a/x is deleted and /a not synced, then /a/y is deleted",
            Scene::LeftTarget => "/s/e is copied and /t not synced, then /s/e is deleted",
            Scene::NewFolder => "/a/n is made",
            Scene::LeftNewFolder => "/a/n is made and /a not synced, then /a/m is made",
            Scene::NewLink => "/a/l is made, a link that says x",
            Scene::Mode => "/a/x is given the mode 600",
            Scene::LeftMode => "/a/x is given the mode 600 and not synced, then /a/y is",
            Scene::Tree => "/s/d is copied into /t with all that lies in it",
            Scene::Move => "/s/e is moved into /t",
            Scene::MoveOver => "/s/e is moved over /t/e",
            Scene::LeftMove => "/s/e is moved and neither folder synced, then /t/e is deleted",
            Scene::FolderMove => "/s/d is moved into /t with all that lies in it",
            Scene::LeftFolderMove => {
                "/s/d is moved and neither folder synced, then /t/d/e is deleted"
            }
            Scene::Merge => "/s/d is moved onto /t/d with all that lies in it",
            Scene::KeptMerge => "/s/d is moved onto /t/d, where /t/d/l stays",
        }
    }

    /// Whether bytes are written.
    pub fn writes(self) -> bool {
        match self {
            Scene::Copy => true,
            Scene::Overwriting => true,
            Scene::LeftTarget => true,
            Scene::Tree => true,
            _ => false,
        }
    }

    /// What stands on the disk before it, line by line.
    pub fn things(self) -> &'static str {
        match self {
            Scene::Folder => "folder /a 755\nfolder /a/d 755\nfile /a/d/x 644 hi\nfile /a/y 644 hi",
            Scene::Copy => "folder /s 755\nfolder /t 755\nfile /s/e 640 hello",
            Scene::Overwriting => FILE_OVER_FILE,
            Scene::LinkOver => "folder /s 755\nfolder /t 755\nlink /s/l x\nfile /t/l 600 old",
            Scene::LeftTarget => "folder /s 755\nfolder /t 755\nfile /s/e 640 hello",
            Scene::NewFolder => "folder /a 755",
            Scene::LeftNewFolder => "folder /a 755",
            Scene::NewLink => "folder /a 755",
            Scene::Tree => {
                "folder /s 755\nfolder /t 755\nfolder /s/d 555\nfile /s/d/e 640 hello\nlink /s/d/l e"
            }
            Scene::Move => "folder /s 755\nfolder /t 755\nfile /s/e 640 hello",
            Scene::MoveOver => FILE_OVER_FILE,
            Scene::LeftMove => "folder /s 755\nfolder /t 755\nfile /s/e 640 hello",
            Scene::FolderMove => FOLDER_TO_MOVE,
            Scene::LeftFolderMove => FOLDER_TO_MOVE,
            Scene::Merge => FOLDER_TO_MERGE,
            Scene::KeptMerge => FOLDER_TO_MERGE,
            _ => "folder /a 755\nfile /a/x 644 hi\nfile /a/y 644 hi",
        }
    }

    /// The numbers of the calls of the tree that fail.
    pub fn fails(self) -> &'static [u64] {
        match self {
            Scene::LeftFolder => REFUSED_SYNCS,
            Scene::LeftTarget => REFUSED_TARGET_SYNCS,
            Scene::LeftNewFolder => REFUSED_FOLDER_SYNCS,
            Scene::LeftMode => REFUSED_FILE_SYNCS,
            Scene::LeftMove => REFUSED_MOVE_SYNCS,
            Scene::LeftFolderMove => REFUSED_MOVE_SYNCS,
            _ => &[],
        }
    }

    /// The session, where it is one by keys.
    pub fn keys(self) -> Option<Keys> {
        match self {
            Scene::Deletion => Some(session("/a", "/a", DELETING)),
            Scene::Folder => Some(session("/a", "/a", DELETING)),
            Scene::Copy => Some(session("/s", "/t", COPYING)),
            Scene::Overwriting => Some(session("/s", "/t", OVERWRITING)),
            Scene::LinkOver => Some(session("/s", "/t", OVERWRITING)),
            Scene::LeftFolder => Some(session("/a", "/a", DELETING_BOTH)),
            Scene::LeftTarget => Some(session("/s", "/t", COPYING_AND_DELETING)),
            Scene::NewFolder => Some(session("/a", "/a", MAKING)),
            Scene::LeftNewFolder => Some(session("/a", "/a", MAKING_BOTH)),
            Scene::Move => Some(session("/s", "/t", MOVING)),
            Scene::MoveOver => Some(session("/s", "/t", MOVING_OVER)),
            Scene::LeftMove => Some(session("/s", "/t", MOVING_AND_DELETING)),
            Scene::FolderMove => Some(session("/s", "/t", MOVING)),
            Scene::LeftFolderMove => Some(session("/s", "/t", MOVING_AND_DELETING_IN_IT)),
            Scene::Merge => Some(session("/s", "/t", MOVING_OVER)),
            Scene::KeptMerge => Some(session("/s", "/t", MOVING_BESIDE)),
            Scene::NewLink => None,
            Scene::Mode => None,
            Scene::LeftMode => None,
            Scene::Tree => None,
        }
    }
}

/// A file, and one with its name in the folder to which it is to come.
const FILE_OVER_FILE: &str = "folder /s 755\nfolder /t 755\nfile /s/e 640 hello\nfile /t/e 600 old";

/// A folder with a file and a link in it, and one into which it is to come.
const FOLDER_TO_MOVE: &str =
    "folder /s 755\nfolder /t 755\nfolder /s/d 750\nfile /s/d/e 640 hello\nlink /s/d/l e";

/// The same folder, and one of its name, in which a file has the name of the link.
const FOLDER_TO_MERGE: &str =
    "folder /s 755\nfolder /t 755\nfolder /s/d 750\nfile /s/d/e 640 hello\nlink /s/d/l x\nfolder /t/d 711\n\
     file /t/d/l 600 old";

/// A session by keys: the folders of its panels, and the bytes of its keys.
#[derive(Clone, Copy)]
pub struct Keys {
    pub left: &'static str,
    pub right: &'static str,
    pub bytes: &'static [u8],
}

fn session(left: &'static str, right: &'static str, bytes: &'static [u8]) -> Keys {
    Keys { left, right, bytes }
}

/// A file as it was put: its bytes, fewer than eight, and its mode.
#[derive(Clone, Copy)]
pub struct Original {
    pub bytes: &'static [u8],
    pub mode: u16,
}

/// The file that is deleted, and the one beside it.
pub const DELETED: Original = Original {
    bytes: b"hi",
    mode: 0o644,
};

/// The same file once it was given its mode.
pub const SET: Original = Original {
    bytes: b"hi",
    mode: 0o600,
};

/// The file that is copied.
pub const COPIED: Original = Original {
    bytes: b"hello",
    mode: 0o640,
};

/// The file over which it is copied.
pub const REPLACED: Original = Original {
    bytes: b"old",
    mode: 0o600,
};

/// Down, F8, Enter, F10.
const DELETING: &[u8] = b"\x1b[B\x1b[19~\r\x1b[21~";

/// Down, F5, Enter at the mask, Enter at the target, F10.
const COPYING: &[u8] = b"\x1b[B\x1b[15~\r\r\x1b[21~";

/// Down, F5, Enter at the mask, Enter at the target, y in the box of the question, F10.
const OVERWRITING: &[u8] = b"\x1b[B\x1b[15~\r\ry\x1b[21~";

/// Down, F8, Enter, b in the box of the refused sync, F8, Enter, F10.
const DELETING_BOTH: &[u8] = b"\x1b[B\x1b[19~\rb\x1b[19~\r\x1b[21~";

/// The calls that are the first sync, and the one of the last steps. Before them comes the opening: for
/// each panel a look at its path, a listing, and a look at each of two files; then a look of the key and
/// one of the job, and the removal.
const REFUSED_SYNCS: &[u64] = &[12, 13];

/// Down, F5, Enter, Enter, b in the box of the refused sync, F8, Enter, F10.
const COPYING_AND_DELETING: &[u8] = b"\x1b[B\x1b[15~\r\rb\x1b[19~\r\x1b[21~";

/// The calls that are the sync after the renaming, and the one of the last steps. Before them comes the
/// opening: for each panel a look at its path and a listing, and a look at the file; then three looks of
/// the keys (at the file, at it again, and at the folder that was typed), three of the copy, and the part
/// made, filled from what is read, synced and renamed.
const REFUSED_TARGET_SYNCS: &[u64] = &[17, 18];

/// F7, n, Enter, F10.
const MAKING: &[u8] = b"\x1b[18~n\r\x1b[21~";

/// F7, n, Enter, b in the box of the refused sync, F7, m, Enter, F10.
const MAKING_BOTH: &[u8] = b"\x1b[18~n\rb\x1b[18~m\r\x1b[21~";

/// The calls that are the sync after the making, and the one of the last steps. Before them comes the
/// opening: for each panel a look at its path and a listing; then the key's looks at the folder and at the
/// path in it, and the making.
const REFUSED_FOLDER_SYNCS: &[u64] = &[8, 9];

/// The calls that are the sync of the file, and the one of the last steps. Before the first come the
/// setting and a look, and another look between them.
const REFUSED_FILE_SYNCS: &[u64] = &[3, 5];

/// Down, F6, Enter at the mask, Enter at the target, F10.
const MOVING: &[u8] = b"\x1b[B\x1b[17~\r\r\x1b[21~";

/// Down, F6, Enter at the mask, Enter at the target, y in the box of the question, F10.
const MOVING_OVER: &[u8] = b"\x1b[B\x1b[17~\r\ry\x1b[21~";

/// The same, but n.
const MOVING_BESIDE: &[u8] = b"\x1b[B\x1b[17~\r\rn\x1b[21~";

/// Down, F6, Enter, Enter, b in the box of the refused sync, Tab, Down, F8, Enter, F10.
const MOVING_AND_DELETING: &[u8] = b"\x1b[B\x1b[17~\r\rb\t\x1b[B\x1b[19~\r\x1b[21~";

/// The same, but before F8 Enter to go into the moved folder, and Down.
const MOVING_AND_DELETING_IN_IT: &[u8] = b"\x1b[B\x1b[17~\r\rb\t\x1b[B\r\x1b[B\x1b[19~\r\x1b[21~";

/// The calls that are the sync of the target's folder after the renaming, and in the last steps that one
/// again and the sync of the source's folder. Before them comes what comes before the looks of a copy,
/// eight calls; then two looks of the job, and the renaming.
const REFUSED_MOVE_SYNCS: &[u64] = &[12, 13, 14];
