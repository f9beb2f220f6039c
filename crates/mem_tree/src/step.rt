//! What is to be done for a call.
use mc_text::Name;
use tree_trait::{Node, Seq};

/// What a call that isn't refused is to do. `at` is the place, among the names that
/// stand, of the name that ends.
#[derive(Drop)]
pub enum Step {
    Stay,
    Make {
        folder: usize,
        name: Name,
        made: Node,
    },
    Move {
        at: usize,
        to: usize,
        name: Name,
        moved: usize,
        replaced: Option<usize>,
    },
    Unlink {
        at: usize,
        node: usize,
    },
    SetMode {
        node: usize,
        mode: u16,
    },
    Write {
        node: usize,
        bytes: Seq<u8>,
        mtime: i64,
    },
    Flush(usize),
}
