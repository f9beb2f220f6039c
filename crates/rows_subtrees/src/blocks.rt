//! A block of rows: a tree of its own, and the copy that is made in it.
ghost use Rattle.std.specs.Prelude.{◌≡◌, ◌<◌, [], length};

use crate::copying::tell_copy;
use crate::crashes::tell_crashes;
use crate::orders::{Orders, orders_of, prepare};
use crate::showing::tell_tree;
use crate::things::{CopiedThings, put_mount};
use mem_tree::MemTree;
use rows_page::{Page, two_fields};
use rows_trees::{fresh, put_things};

/// The title, the steps of the copy, and what stands at the end.
pub fn tell_block(page: &mut Page, block: &str) {
    match fresh(page.alloc(), 0) {
        Ok(mut tree) => tell_in(page, &mut tree, block),
        Err(_error) => page.fail(),
    }
}

fn tell_in(page: &mut Page, tree: &mut MemTree, block: &str)
    requires unused { tree.old.log.changes ≡ [] }
    requires few { length tree.old.log.opening.mounts < 1000 }
{
    let (title, rest) = two_fields(block, '\n');
    let (things, rest) = rest.split_once("copy\n").unwrap_or((rest, ""));
    let orders = orders_of(rest);
    page.put(title);
    page.put("\n");
    put_mount(page, tree, orders.room);
    put_things::<CopiedThings>(page, tree, things);
    tell_ordered(page, tree, &orders);
}

fn tell_ordered(page: &mut Page, tree: &mut MemTree, orders: &Orders) {
    prepare(page, tree, orders);
    tell_copy(page, tree, orders);
    tell_crashes(page, tree, orders.crash);
    tell_tree(page, tree);
}
