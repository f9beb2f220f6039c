//! What the calls of a tree answer.
use mc_text::{Kind, Names};
use std::alloc::AllocError;
use thiserror::Error;

/// Why a call of a tree was refused.
#[derive(Clone, Copy, Debug, Drop, Error, PartialEq, Eq)]
pub enum TreeError {
    #[error("no such file or folder")]
    Missing,
    #[error("not a folder")]
    NotFolder,
    #[error("permission denied")]
    Denied,
    #[error("already there")]
    Exists,
    #[error("is a folder")]
    IsFolder,
    #[error("folder not empty")]
    NotEmpty,
    #[error("inside itself")]
    IntoItself,
    #[error("is a mount")]
    Mounted,
    #[error("other mount")]
    CrossMount,
    #[error("no space left")]
    NoSpace,
    #[error("special file")]
    Special,
    /// The device failed; its count of faults has risen.
    #[error("device fault")]
    Fault,
    #[error("out of memory")]
    Memory,
}

impl From<AllocError> for TreeError {
    ghost use Rattle.std.specs.Prelude.{◌≡◌};
    ghost use Rattle.tree_trait.specs.declared.calls.TreeError.TheVariants.{Memory};

    ghost from_gives = { λ _ error. error ≡ Memory };

    fn from(_error: AllocError) -> TreeError {
        TreeError::Memory
    }
}

/// What stands at a path: its kind, its bytes, its twelve mode bits, the second of its last change, and the
/// number of its mount. What a tree doesn't keep of a thing is 0.
#[derive(Clone, Copy, Debug)]
pub struct Meta {
    pub kind: Kind,
    pub size: u64,
    pub mode: u16,
    pub mtime: i64,
    pub mount: u32,
}

/// The names of a folder's children in byte order, and how many more there are whose names are not UTF-8.
#[derive(Debug, Drop)]
pub struct Children {
    pub names: Names,
    pub unnamed: u64,
}
