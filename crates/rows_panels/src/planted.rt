//! The tree in which texts are resolved.
use rows_page::Page;
use rows_trees::{plant, plant_folder, plant_link};
use tree_trait::Tree;

/// Folders, a file, and links.
const THINGS: &str = "folder /a
folder /a/b
folder /a/b/c
file /a/f
link /l -> /l
link /a/up -> ..
link /a/down -> b/c
link /a/far -> /a/b
link /a/chain -> far/up/down
link /a/b/up -> ../../a
link /a/b/file -> ../f
link /a/gone -> missing
link /a/slashes -> /a//b/./c/";

/// How many links hang one behind the other, down to `/a`.
const CHAIN: u32 = 41;

/// Plants the things, the folder `/shut` that can't be searched, and the chain of links.
pub fn plant_tree<T: Tree>(page: &mut Page, tree: &mut T) {
    plant(page, tree, THINGS);
    plant_folder(page, tree, "/shut", 0o600);
    plant_link(page, tree, "/n40", "a");
    for number in 1..CHAIN {
        plant_chained(page, tree, CHAIN - number);
    }
}

/// A link to the one with the same number.
fn plant_chained<T: Tree>(page: &mut Page, tree: &mut T, number: u32) {
    let mut path = Page::new(page.alloc());
    path.tell(format_args!("/n{}", number.saturating_sub(1)));
    let mut text = Page::new(page.alloc());
    text.tell(format_args!("n{number}"));
    plant_link(page, tree, path.text(), text.text());
}
