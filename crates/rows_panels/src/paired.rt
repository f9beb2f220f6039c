//! Works commands on the two panels of trees in memory, and writes what they come to.

use crate::commands::tell_command;
use crate::folders::put_things;
use crate::telling::{tell_panels, tell_unopened};
use mc_text::Path;
use mem_tree::MemTree;
use panel_pair::Panels;
use rows_page::{Page, two_fields};
use rows_trees::{Blocks, tell_blocks};
use tree_trait::Tree;

/// Each block of rows with what comes of it. Before a line `opened` stands what is on its disk, and behind
/// it the folders of both panels.
pub fn tell_pairs(page: &mut Page, blocks: &str) {
    tell_blocks::<PairBlocks>(page, blocks);
}

/// Blocks of rows on two panels.
struct PairBlocks;

impl Blocks for PairBlocks {
    fn tell(page: &mut Page, tree: &mut MemTree, block: &str) {
        let (things, rows) = block.split_once("opened ").unwrap_or((block, ""));
        put_things(page, tree, things);
        page.put(things);
        let (folders, rows) = two_fields(rows, '\n');
        tell_opened(page, tree, folders, rows);
    }
}

/// The panels of two folders, and each row with what it comes to.
fn tell_opened<T: Tree>(page: &mut Page, tree: &mut T, folders: &str, rows: &str) {
    page.tell(format_args!("opened {folders} => "));
    let (left, right) = two_fields(folders, ' ');
    match (
        Path::parse(page.alloc(), left),
        Path::parse(page.alloc(), right),
    ) {
        (Ok(left), Ok(right)) => tell_session(page, tree, &left, &right, rows),
        _ => page.fail(),
    }
    page.put("\n");
}

fn tell_session<T: Tree>(page: &mut Page, tree: &mut T, left: &Path, right: &Path, rows: &str) {
    match Panels::open(page.alloc(), tree, left, right) {
        Ok(mut panels) => tell_worked(page, tree, &mut panels, rows),
        Err(unopened) => tell_unopened(page, &unopened),
    }
}

fn tell_worked<T: Tree>(page: &mut Page, tree: &mut T, panels: &mut Panels, rows: &str) {
    tell_panels(page, panels);
    for row in rows.lines() {
        page.tell(format_args!("\n{row} => "));
        tell_command(page, tree, panels, row);
    }
}
