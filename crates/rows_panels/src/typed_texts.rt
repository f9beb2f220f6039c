//! Where typed texts lead in a tree in memory.

use crate::planted::plant_tree;
use mc_text::{NoMemory, Path, Text};
use mem_tree::MemTree;
use resolving::{ResolveError, Wanted, resolve};
use rows_page::{Page, repeated, two_fields};
use std::convert::AsStr;
use tree_trait::Tree;

/// Each row with what both calls make of it: the folder where it begins, and the text.
/// Then what stops at a limit.
pub fn tell_resolving(page: &mut Page, rows: &str) {
    match MemTree::new(page.alloc(), 0) {
        Ok(mut tree) => tell_in(page, &mut tree, rows),
        Err(_error) => page.fail(),
    }
}

fn tell_in<T: Tree>(page: &mut Page, tree: &mut T, rows: &str) {
    plant_tree(page, tree);
    for row in rows.lines() {
        tell_row(page, tree, row);
    }
    tell_limits(page, tree);
}

fn tell_row<T: Tree>(page: &mut Page, tree: &mut T, row: &str) {
    let (from, typed) = two_fields(row, ' ');
    page.put(row);
    page.put(": ");
    match Path::parse(page.alloc(), from) {
        Ok(from) => tell_both(page, tree, &from, typed),
        Err(_error) => page.fail(),
    }
    page.put("\n");
}

fn tell_both<T: Tree>(page: &mut Page, tree: &mut T, from: &Path, typed: &str) {
    tell_end(page, tree, Wanted::FolderAlone, from, typed);
    page.put("; ");
    tell_end(page, tree, Wanted::AnyThing, from, typed);
}

fn tell_end<T: Tree>(page: &mut Page, tree: &mut T, wanted: Wanted, from: &Path, typed: &str) {
    tell_resolved(page, resolve(page.alloc(), tree, wanted, from, typed));
}

/// The path, or the refusal with the path where the tree refused.
fn tell_resolved(page: &mut Page, answer: Result<Path, ResolveError>) {
    match answer {
        Ok(path) => tell_text(page, path.text(page.alloc())),
        Err(ResolveError::Tree(path, error)) => {
            page.tell(error);
            page.put(" at ");
            tell_text(page, path.text(page.alloc()));
        }
        Err(error) => page.tell(error),
    }
}

fn tell_text(page: &mut Page, text: Result<Text, NoMemory>) {
    match text {
        Ok(text) => page.put(text.as_str()),
        Err(_error) => page.fail(),
    }
}

/// A name of 256 bytes, a name with a NUL, and an entry of a folder whose path has 4,096 bytes already.
fn tell_limits<T: Tree>(page: &mut Page, tree: &mut T) {
    let root = Path::root(page.alloc());
    let long = repeated(page.alloc(), "a", 256);
    page.put("limits: ");
    tell_end(page, tree, Wanted::AnyThing, &root, long.text());
    page.put("; ");
    tell_end(page, tree, Wanted::FolderAlone, &root, "a\0");
    page.put("; ");
    let deep = repeated(page.alloc(), "/a", 2048);
    match Path::parse(page.alloc(), deep.text()) {
        Ok(deep) => tell_end(page, tree, Wanted::FolderAlone, &deep, "a"),
        Err(_error) => page.fail(),
    }
    page.put("\n");
}
