//! Reads menus, row by row, and writes what each holds, or which of its entries are shown; and lists of
//! jobs with keys, and what these come to.
#![tactic(auto)]

mod facts;
mod jobs;
mod menus;
mod showing;

use mem_tree::MemTree;
use rows_page::{Page, two_fields};
use rows_trees::{plant, plant_file};
use tree_trait::Tree;

/// Each row with what comes of it.
pub fn tell_rows(page: &mut Page, rows: &str) {
    match MemTree::new(page.alloc(), 0) {
        Ok(mut tree) => tell_rows_in(page, &mut tree, rows),
        Err(_error) => page.fail(),
    }
}

/// Programs are looked for in a tree with the file `run`, which may be run, the file `plain`, which may
/// not, a folder, and a link to `run`.
fn tell_rows_in<T: Tree>(page: &mut Page, tree: &mut T, rows: &str) {
    plant(page, tree, "folder /p\nfolder /p/q\nfolder /p/q/box");
    plant_file(page, tree, "/p/q/run", 0o755);
    plant(page, tree, "file /p/q/plain\nlink /p/q/way -> run");
    for row in rows.lines() {
        page.put(row);
        page.put(" => ");
        tell_row(page, tree, row);
        page.put("\n");
    }
}

/// What comes of a row: the word before its first bar says what is asked.
fn tell_row<T: Tree>(page: &mut Page, tree: &mut T, row: &str) {
    let (call, field) = two_fields(row, '|');
    match call {
        "read" => menus::tell_menu(page, field),
        "repeated" => menus::tell_repeated(page, field),
        "cuts" => menus::tell_cuts(page, field),
        "shown" => showing::tell_shown(page, tree, field),
        _ => page.fail(),
    }
}

/// Each row of a list of jobs with what comes of it.
pub fn tell_job_rows(page: &mut Page, rows: &str) {
    for row in rows.lines() {
        page.put(row);
        page.put(" =>");
        tell_job_row(page, row);
        page.put("\n");
    }
}

fn tell_job_row(page: &mut Page, row: &str) {
    let (call, stages) = two_fields(row, '|');
    match call {
        "keys" => jobs::tell_keys(page, stages),
        "list" => jobs::tell_list(page, stages),
        _ => page.fail(),
    }
}
