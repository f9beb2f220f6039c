//! Searches below folders of a tree in memory, and writes what each of them answers.
#![tactic(auto)]

ghost use Rattle.std.specs.Prelude.{◌≡◌, []};

mod asking;
mod keyed;
mod things;

use crate::asking::tell_row;
use crate::keyed::tell_key_row;
use crate::things::SoughtThings;
use mem_tree::MemTree;
use rows_page::Page;
use rows_trees::{fresh, put_things};

/// What stands on the disk, line by line; then, behind a line `sought`, each row with its answers.
pub fn tell_rows(page: &mut Page, lines: &str) {
    match fresh(page.alloc(), 0) {
        Ok(mut tree) => tell_in(page, &mut tree, lines),
        Err(_error) => page.fail(),
    }
}

fn tell_in(page: &mut Page, tree: &mut MemTree, lines: &str)
    requires { tree.old.log.changes ≡ [] }
{
    let (things, rows) = lines.split_once("sought\n").unwrap_or((lines, ""));
    put_things::<SoughtThings>(page, tree, things);
    page.put(things);
    page.put("sought\n");
    for row in rows.lines() {
        page.put(row);
        page.put(" =>");
        match row.strip_prefix("keys|") {
            Some(row) => tell_key_row(page, tree, row),
            None => tell_row(page, tree, row),
        }
        page.put("\n");
    }
}
