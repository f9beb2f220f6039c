//! Reads folders of trees in memory, and writes the names and rows of their listings; and reads formats.

use crate::folders::put_things;
use mem_tree::MemTree;
use rows_page::{Page, two_fields};
use rows_trees::{Blocks, tell_blocks};
use tree_trait::Tree;

/// Each block of rows with what comes of it. Before a line `listed` stands what is on its disk.
pub fn tell_listings(page: &mut Page, blocks: &str) {
    tell_blocks::<ListingBlocks>(page, blocks);
}

/// Blocks of rows on listings and formats.
struct ListingBlocks;

impl Blocks for ListingBlocks {
    fn tell(page: &mut Page, tree: &mut MemTree, block: &str) {
        let (things, rows) = block.split_once("listed\n").unwrap_or((block, ""));
        put_things(page, tree, things);
        page.put(things);
        page.put("listed\n");
        tell_asked(page, tree, rows);
    }
}

/// Each row with its answer.
fn tell_asked<T: Tree>(page: &mut Page, tree: &mut T, rows: &str) {
    for row in rows.lines() {
        page.put(row);
        page.put(" => ");
        tell_row(page, tree, row);
        page.put("\n");
    }
}

/// What comes of a row. The word before its first bar says what is asked.
fn tell_row<T: Tree>(page: &mut Page, tree: &mut T, row: &str) {
    let (asked, fields) = two_fields(row, '|');
    match asked {
        "format" => crate::formats::tell_format(page, fields),
        "list" => crate::listings::tell_read(page, tree, fields),
        "again" => crate::listings::tell_again(page, tree, fields),
        "each" => crate::listings::tell_each(page, tree, fields),
        "rows" => crate::painted::tell_painted(page, tree, fields),
        _ => page.fail(),
    }
}
