//! What a tree of files is: numbered nodes, and the names that lead to them.
use crate::list::Seq;
use mc_text::{Kind, Name};

/// A node. `bytes` are those of a file or the text of a link, and empty elsewhere; `unnamed` is of folders,
/// and says how many names in it are not UTF-8.
#[derive(Drop)]
pub struct Node {
    pub kind: Kind,
    pub bytes: Seq<u8>,
    pub mode: u16,
    pub mtime: i64,
    pub unnamed: u64,
}

/// One edit of a folder: the name leads to this node from then on, or to none.
#[derive(Drop)]
pub struct NameEdit {
    pub folder: usize,
    pub name: Name,
    pub to: Option<usize>,
}

/// A mount: the folder where it begins, and how many bytes its files may have. The first is that of the root.
#[derive(Clone, Copy)]
pub struct Mount {
    pub folder: usize,
    pub capacity: u64,
}

/// A file system. Node 0 is the root. `names` has the newest edit first: a name leads to
/// what its newest edit says.
#[derive(Drop)]
pub struct FileSystem {
    pub nodes: Seq<Node>,
    pub names: Seq<NameEdit>,
    pub mounts: Seq<Mount>,
}
