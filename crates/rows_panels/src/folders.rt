//! What stands on the disk of a tree, line by line.
ghost use Rattle.std.specs.Prelude.{◌≡◌, ◌≤◌, []};

use crate::home::put_home;
use mem_tree::MemTree;
use rows_page::{Page, number, two_fields};
use rows_trees::{Things, mode_of, put_file};

/// Puts what each line spells on the disk.
pub fn put_things(page: &mut Page, tree: &mut MemTree, lines: &str)
    requires { tree.old.log.changes ≡ [] }
{
    rows_trees::put_things::<ListedThings>(page, tree, lines);
}

/// The things that are listed.
struct ListedThings;

impl Things for ListedThings {
    fn put(page: &mut Page, tree: &mut MemTree, kind: &str, path: &str, facts: &str) {
        match kind {
            "file" => put_file_of(page, tree, path, facts),
            "files" => put_files(page, tree, path, facts),
            "home" => put_home(page, tree, path, number(facts)),
            _ => page.fail(),
        }
    }
}

/// A file: its mode, its size, and its time.
fn put_file_of(page: &mut Page, tree: &mut MemTree, path: &str, facts: &str)
    requires { tree.old.log.changes ≡ [] }
    ensures { tree.new.log.changes ≡ [] }
{
    let (mode, facts) = two_fields(facts, ' ');
    let (size, mtime) = two_fields(facts, ' ');
    put_sized(
        page,
        tree,
        path,
        mode_of(mode),
        number(size),
        seconds(mtime),
    );
}

/// So many files of one size in a folder.
fn put_files(page: &mut Page, tree: &mut MemTree, folder: &str, facts: &str)
    requires { tree.old.log.changes ≡ [] }
    ensures { tree.new.log.changes ≡ [] }
{
    let (count, size) = two_fields(facts, ' ');
    for place in 0..number(count) {
        put_numbered(page, tree, folder, "f", place, number(size));
    }
}

/// A file of a folder whose name ends with a number.
pub fn put_numbered(
    page: &mut Page,
    tree: &mut MemTree,
    folder: &str,
    front: &str,
    place: usize,
    size: usize,
)
    requires { tree.old.log.changes ≡ [] }
    ensures { tree.new.log.changes ≡ [] }
{
    let mut path = Page::new(page.alloc());
    path.tell(format_args!("{folder}/{front}{place}"));
    put_sized(page, tree, path.text(), 0o644, size, 0);
}

fn put_sized(page: &mut Page, tree: &mut MemTree, path: &str, mode: u16, size: usize, mtime: i64)
    requires unused { tree.old.log.changes ≡ [] }
    requires mode { mode ≤ 0o7777 }
    ensures { tree.new.log.changes ≡ [] }
{
    match vec![in page.alloc(); b'a'; size] {
        Ok(bytes) => put_file(page, tree, path, mode, mtime, bytes.as_slice()),
        Err(_error) => page.fail(),
    }
}

fn seconds(field: &str) -> i64 {
    field.parse().unwrap_or(0)
}
