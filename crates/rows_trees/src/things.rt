//! What stands on the disk of a tree, line by line: a thing's kind, its path, and what else is said of it.
ghost use Rattle.std.specs.Prelude.{◌≡◌, ◌≤◌, []};

use crate::paths::path_spelled;
use crate::putting::{put_folder, put_link, put_other};
use mem_tree::MemTree;
use rows_page::{Page, number, two_fields};

/// Kinds of things besides `folder`, `link` and `other`.
pub trait Things {
    /// Puts a thing of such a kind on the disk.
    fn put(page: &mut Page, tree: &mut MemTree, kind: &str, path: &str, facts: &str)
        requires { tree.old.log.changes ≡ [] }
        ensures { tree.new.log.changes ≡ [] };
}

/// Puts what each line spells on the disk.
pub fn put_things<T: Things>(page: &mut Page, tree: &mut MemTree, lines: &str)
    requires { tree.old.log.changes ≡ [] }
{
    for line in lines.lines() {
        put_line::<T>(page, tree, line);
    }
}

fn put_line<T: Things>(page: &mut Page, tree: &mut MemTree, line: &str)
    requires { tree.old.log.changes ≡ [] }
    ensures { tree.new.log.changes ≡ [] }
{
    let (kind, rest) = two_fields(line, ' ');
    let (path, facts) = two_fields(rest, ' ');
    let path = path_spelled(page, path);
    put_thing::<T>(page, tree, kind, path.text(), facts);
}

fn put_thing<T: Things>(page: &mut Page, tree: &mut MemTree, kind: &str, path: &str, facts: &str)
    requires { tree.old.log.changes ≡ [] }
    ensures { tree.new.log.changes ≡ [] }
{
    match kind {
        "folder" => put_folder_of(page, tree, path, facts),
        "link" => put_link(page, tree, path, facts),
        "other" => put_other(page, tree, path),
        _ => T::put(page, tree, kind, path, facts),
    }
}

/// A folder: its mode, and how many things in it have names that aren't UTF-8.
fn put_folder_of(page: &mut Page, tree: &mut MemTree, path: &str, facts: &str)
    requires { tree.old.log.changes ≡ [] }
    ensures { tree.new.log.changes ≡ [] }
{
    let (mode, unnamed) = two_fields(facts, ' ');
    put_folder(page, tree, path, mode_of(mode), number(unnamed) as u64);
}

/// The mode that a field spells. It has twelve bits.
pub fn mode_of(field: &str) -> u16
    ensures { result ≤ 0o7777 }
{
    u16::from_str_radix(field, 8).unwrap_or(0).min(0o7777)
}
