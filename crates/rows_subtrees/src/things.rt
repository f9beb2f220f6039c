//! The mount at `/t`, and the files and chains among the things on the disk of a tree.
ghost use Rattle.std.specs.Prelude.{◌≡◌, ◌<◌, [], length};

use mc_text::Path;
use mem_tree::MemTree;
use rows_page::{Page, number, two_fields};
use rows_trees::{Things, mode_of, put_file, put_folder};
use std::alloc::Global;

/// Makes the folder `/t`, and lets a mount begin there whose files may have so many
/// bytes, if that is spelled.
pub fn put_mount(page: &mut Page, tree: &mut MemTree, room: &str)
    requires unused { tree.old.log.changes ≡ [] }
    requires few { length tree.old.log.opening.mounts < 1000 }
    ensures { tree.new.log.changes ≡ [] }
{
    if room.is_empty() {
        return put_folder(page, tree, "/t", 0o755, 0);
    }
    let mounted = mount(page.alloc(), tree, number(room) as u64);
    page.need(mounted);
}

fn mount(alloc: Global, tree: &mut MemTree, room: u64) -> bool
    requires unused { tree.old.log.changes ≡ [] }
    requires few { length tree.old.log.opening.mounts < 1000 }
    ensures { tree.new.log.changes ≡ [] }
{
    match Path::parse(alloc, "/t") {
        Ok(path) => tree.mount(alloc, &path, room).is_ok(),
        Err(_error) => false,
    }
}

/// The things that are copied.
pub struct CopiedThings;

impl Things for CopiedThings {
    fn put(page: &mut Page, tree: &mut MemTree, kind: &str, path: &str, facts: &str) {
        match kind {
            "file" => put_file_of(page, tree, path, facts),
            "chain" => put_chain(page, tree, path, number(facts)),
            _ => page.fail(),
        }
    }
}

/// A file: its mode, and its bytes.
fn put_file_of(page: &mut Page, tree: &mut MemTree, path: &str, facts: &str)
    requires { tree.old.log.changes ≡ [] }
    ensures { tree.new.log.changes ≡ [] }
{
    let (mode, bytes) = two_fields(facts, ' ');
    put_file(page, tree, path, mode_of(mode), 0, bytes.as_bytes());
}

/// So many folders, each in the one before.
fn put_chain(page: &mut Page, tree: &mut MemTree, path: &str, count: usize)
    requires { tree.old.log.changes ≡ [] }
    ensures { tree.new.log.changes ≡ [] }
{
    let mut folder = Page::new(page.alloc());
    for _ in 0..count {
        folder.put(path);
        put_folder(page, tree, folder.text(), 0o755, 0);
    }
}
