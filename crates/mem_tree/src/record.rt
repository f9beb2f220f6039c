//! What a tree in memory keeps of each changing call.
use mc_text::Name;
use tree_trait::{Node, Seq};

/// What a changing call did: nothing, where it was refused or failed; or the change that it made.
#[derive(Drop)]
pub enum Record {
    Idle,
    Make {
        folder: usize,
        name: Name,
        made: Node,
    },
    /// The name `old` of the folder `from` ends, and the name `new` of the folder `to` leads to the node.
    Move {
        from: usize,
        old: Name,
        to: usize,
        new: Name,
        moved: usize,
        replaced: Option<usize>,
    },
    Unlink {
        folder: usize,
        name: Name,
        node: usize,
    },
    SetMode {
        node: usize,
        mode: u16,
    },
    Write {
        node: usize,
        bytes: Seq<u8>,
        mtime: i64,
    },
    Flush(usize),
}
