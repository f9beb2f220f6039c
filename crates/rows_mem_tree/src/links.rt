//! A tree with links.
ghost use Rattle.std.specs.Prelude.{◌≤◌};

use mc_text::Path;
use rows_page::Page;
use std::alloc::Global;
use tree_trait::{Tree, TreeError};

/// Plants three folders, each with a link and a folder: one with a file, one that may not be changed, and
/// one that may not be searched.
pub fn plant_links<T: Tree>(page: &mut Page, tree: &mut T) {
    plant(page, tree, "/dir", "/dir/link", "/dir/folder");
    plant(page, tree, "/fixed", "/fixed/link", "/fixed/folder");
    plant(page, tree, "/shut", "/shut/link", "/shut/folder");
    let done = plant_file(page.alloc(), tree) && shut(page.alloc(), tree);
    page.need(done);
}

/// A folder with a link and a folder in it.
fn plant<T: Tree>(page: &mut Page, tree: &mut T, folder: &str, link: &str, inner: &str) {
    let alloc = page.alloc();
    let done = plant_folder(alloc, tree, folder)
        && plant_link(alloc, tree, link)
        && plant_folder(alloc, tree, inner);
    page.need(done);
}

fn plant_folder<T: Tree>(alloc: Global, tree: &mut T, folder: &str) -> bool {
    match Path::parse(alloc, folder) {
        Ok(folder) => tree.make_folder(alloc, &folder, 0o755).is_ok(),
        Err(_error) => false,
    }
}

fn plant_link<T: Tree>(alloc: Global, tree: &mut T, link: &str) -> bool {
    match Path::parse(alloc, link) {
        Ok(link) => tree.make_link(alloc, &link, "file").is_ok(),
        Err(_error) => false,
    }
}

fn plant_file<T: Tree>(alloc: Global, tree: &mut T) -> bool {
    match Path::parse(alloc, "/dir/file") {
        Ok(file) => tree.make_file(alloc, &file, 0o644).is_ok(),
        Err(_error) => false,
    }
}

/// Takes rights away from the second folder and the third.
fn shut<T: Tree>(alloc: Global, tree: &mut T) -> bool {
    set_mode(alloc, tree, "/fixed", 0o555).is_ok() && set_mode(alloc, tree, "/shut", 0o600).is_ok()
}

fn set_mode<T: Tree>(alloc: Global, tree: &mut T, folder: &str, mode: u16) -> Result<(), TreeError>
    requires mode { mode ≤ 0o7777 }
{
    match Path::parse(alloc, folder) {
        Ok(folder) => tree.set_mode(alloc, &folder, mode),
        Err(_error) => Err(TreeError::Memory),
    }
}
