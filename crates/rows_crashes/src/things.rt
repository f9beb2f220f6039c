//! Files among the things on the disk of a tree.
ghost use Rattle.std.specs.Prelude.{◌≡◌, []};

use mem_tree::MemTree;
use rows_page::{Page, bytes_of, two_fields};
use rows_trees::{Things, mode_of, put_file};

/// The things on the disk before a session: files, too.
pub struct FileThings;

impl Things for FileThings {
    fn put(page: &mut Page, tree: &mut MemTree, kind: &str, path: &str, facts: &str) {
        match kind {
            "file" => put_file_of(page, tree, path, facts),
            _ => page.fail(),
        }
    }
}

/// A file: its mode, and its bytes.
fn put_file_of(page: &mut Page, tree: &mut MemTree, path: &str, facts: &str)
    requires { tree.old.log.changes ≡ [] }
    ensures { tree.new.log.changes ≡ [] }
{
    let (mode, bytes) = two_fields(facts, ' ');
    let bytes = bytes_of(page, bytes);
    put_file(page, tree, path, mode_of(mode), 0, bytes.as_slice());
}
