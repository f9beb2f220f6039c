//! What a key comes to.
use mc_viewer::ViewError;

/// What a key comes to, while a file is viewed.
#[derive(Clone, Copy, Debug, Drop, PartialEq, Eq)]
pub enum ViewerAct {
    /// The file is viewed on.
    Stays,
    /// The viewer was refused what the key wanted of it. Never for want of memory,
    /// which is an error of its own.
    Refused(ViewError),
    /// The viewer is left.
    Leaves,
}
