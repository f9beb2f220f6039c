//! A home folder of many things.
ghost use Rattle.std.specs.Prelude.{◌≡◌, []};

use crate::folders::put_numbered;
use mem_tree::MemTree;
use rows_page::Page;
use rows_trees::put_link;

/// So many things in a folder, in turn: a hidden file, a file with a wide name, a link to `work`, a link
/// that leads nowhere, and a file. Many have one size.
pub fn put_home(page: &mut Page, tree: &mut MemTree, folder: &str, count: usize)
    requires { tree.old.log.changes ≡ [] }
    ensures { tree.new.log.changes ≡ [] }
{
    for place in 0..count {
        put_entry(page, tree, folder, place);
    }
}

fn put_entry(page: &mut Page, tree: &mut MemTree, folder: &str, place: usize)
    requires { tree.old.log.changes ≡ [] }
    ensures { tree.new.log.changes ≡ [] }
{
    match place % 5 {
        0 => put_numbered(page, tree, folder, ".h", place, place),
        1 => put_numbered(page, tree, folder, "日本", place, place % 1000),
        2 => put_numbered_link(page, tree, folder, "l", place, "work"),
        3 => put_numbered_link(page, tree, folder, "s", place, "gone"),
        _ => put_numbered(page, tree, folder, "n", place, place % 100),
    }
}

fn put_numbered_link(
    page: &mut Page,
    tree: &mut MemTree,
    folder: &str,
    front: &str,
    place: usize,
    text: &str,
)
    requires { tree.old.log.changes ≡ [] }
    ensures { tree.new.log.changes ≡ [] }
{
    let mut path = Page::new(page.alloc());
    path.tell(format_args!("{folder}/{front}{place}"));
    put_link(page, tree, path.text(), text);
}
