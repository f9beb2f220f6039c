//! Rows that come in blocks, with an empty line between two blocks.
ghost use Rattle.std.specs.Prelude.{◌≡◌, []};

use crate::putting::fresh;
use mem_tree::MemTree;
use rows_page::Page;

/// What is made of a block.
pub trait Blocks {
    /// Tells what the rows of a block come to, on a tree with nothing but its root.
    fn tell(page: &mut Page, tree: &mut MemTree, block: &str)
        requires { tree.old.log.changes ≡ [] };
}

/// Tells each block, on a tree of its own.
pub fn tell_blocks<B: Blocks>(page: &mut Page, blocks: &str) {
    for block in blocks.split("\n\n") {
        tell_block::<B>(page, block);
        page.put("\n");
    }
}

fn tell_block<B: Blocks>(page: &mut Page, block: &str) {
    match fresh(page.alloc(), 0) {
        Ok(mut tree) => B::tell(page, &mut tree, block),
        Err(_error) => page.fail(),
    }
}
