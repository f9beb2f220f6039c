//! Files among the things on the disk of a tree.
ghost use Rattle.std.specs.Prelude.{◌≡◌, []};

use mem_tree::MemTree;
use rows_page::{Page, bytes_of, number, repeated, two_fields};
use rows_trees::{Things, mode_of, put_file};

/// The things among which others are sought.
pub struct SoughtThings;

impl Things for SoughtThings {
    fn put(page: &mut Page, tree: &mut MemTree, kind: &str, path: &str, facts: &str) {
        match kind {
            "file" => put_file_of(page, tree, path, facts),
            _ => page.fail(),
        }
    }
}

/// A file: its mode, how many dots it begins with, and the bytes behind them.
fn put_file_of(page: &mut Page, tree: &mut MemTree, path: &str, facts: &str)
    requires { tree.old.log.changes ≡ [] }
    ensures { tree.new.log.changes ≡ [] }
{
    let (mode, facts) = two_fields(facts, ' ');
    let (dots, bytes) = two_fields(facts, ' ');
    let mut content = repeated(page.alloc(), ".", number(dots));
    content.put(bytes);
    let content = bytes_of(page, content.text());
    put_file(page, tree, path, mode_of(mode), 0, content.as_slice());
}
