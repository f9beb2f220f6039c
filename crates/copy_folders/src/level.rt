//! A folder that is open while it is copied.
use crate::copy::FolderCopy;
use tree_walk::Opened;

/// What is copied may lie so many levels below the folder that holds it: 256 below itself, and one.
pub const COPY_LEVELS: u32 = 257;

/// The names in the source that are yet to be met, and the copy of the folder itself.
#[derive(Debug, Drop)]
pub struct Level {
    pub names: Opened,
    pub copy: FolderCopy,
}
