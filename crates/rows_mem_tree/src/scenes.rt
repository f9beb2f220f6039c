//! The trees on which the calls of a block are made.
ghost use Rattle.std.specs.Prelude.{◌≡◌, ◌≤◌, ◌<◌, [], length, IfOk};

use crate::calls::tell_calls;
use crate::crashes::tell_crashes;
use crate::links::plant_links;
use mc_text::{NoMemory, Path};
use mem_tree::MemTree;
use rows_page::{Page, two_fields};
use std::alloc::Global;

/// What the calls of a block answer. Its first line names the tree.
pub fn tell_block(page: &mut Page, block: &str) {
    match fresh(page.alloc()) {
        Ok(mut tree) => tell_block_on(page, &mut tree, block),
        Err(_error) => page.fail(),
    }
}

/// A tree with nothing but its root, at second 40.
fn fresh(alloc: Global) -> Result<MemTree, NoMemory>
    ensures unused { IfOk result (λ tree. tree.log.changes ≡ []) }
    ensures few { IfOk result (λ tree. length tree.log.opening.mounts < 1000) }
{
    MemTree::new(alloc, 40)
}

/// Behind a line `crashes` stands what is asked of crash images.
fn tell_block_on(page: &mut Page, tree: &mut MemTree, block: &str)
    requires unused { tree.old.log.changes ≡ [] }
    requires few { length tree.old.log.opening.mounts < 1000 }
{
    let (scene, calls) = two_fields(block, '\n');
    let (calls, crashes) = calls.split_once("crashes\n").unwrap_or((calls, ""));
    plant(page, tree, scene);
    page.put(scene);
    page.put("\n");
    tell_calls(page, tree, calls);
    tell_crashes(page, tree, crashes);
}

fn plant(page: &mut Page, tree: &mut MemTree, scene: &str)
    requires unused { tree.old.log.changes ≡ [] }
    requires few { length tree.old.log.opening.mounts < 1000 }
{
    match scene {
        "small tree" => put_small_tree(page, tree),
        "tree with a mount" => put_mount(page, tree),
        "tree with links" => plant_links(page, tree),
        _ => page.fail(),
    }
}

/// A folder with files, a special thing, and a folder that nobody may search or change, with a file.
fn put_small_tree(page: &mut Page, tree: &mut MemTree)
    requires unused { tree.old.log.changes ≡ [] }
{
    put_folder(page, tree, "/dir", 0o755);
    put_folder(page, tree, "/locked", 0o000);
    put_folder(page, tree, "/fixed", 0o555);
    put_file(page, tree, "/dir/b", 0o644);
    put_file(page, tree, "/dir/shut", 0o000);
    put_file(page, tree, "/locked/c", 0o644);
    put_file(page, tree, "/fixed/d", 0o644);
    put_other(page, tree, "/dir/pipe");
}

/// A mount that holds eight bytes, and a file beside it.
fn put_mount(page: &mut Page, tree: &mut MemTree)
    requires unused { tree.old.log.changes ≡ [] }
    requires few { length tree.old.log.opening.mounts < 1000 }
{
    let Ok(path) = Path::parse(page.alloc(), "/m") else {
        return page.fail();
    };
    page.need(tree.mount(page.alloc(), &path, 8) == Ok(1));
    put_file(page, tree, "/b", 0o644);
}

fn put_folder(page: &mut Page, tree: &mut MemTree, path: &str, mode: u16)
    requires unused { tree.old.log.changes ≡ [] }
    requires mode { mode ≤ 0o7777 }
    ensures unused { tree.new.log.changes ≡ [] }
{
    let Ok(path) = Path::parse(page.alloc(), path) else {
        return page.fail();
    };
    page.need(tree.put_folder(page.alloc(), &path, mode, 2).is_ok());
}

fn put_file(page: &mut Page, tree: &mut MemTree, path: &str, mode: u16)
    requires unused { tree.old.log.changes ≡ [] }
    requires mode { mode ≤ 0o7777 }
    ensures unused { tree.new.log.changes ≡ [] }
{
    let Ok(path) = Path::parse(page.alloc(), path) else {
        return page.fail();
    };
    page.need(
        tree.put_file(page.alloc(), &path, mode, 7, b"bytes")
            .is_ok(),
    );
}

fn put_other(page: &mut Page, tree: &mut MemTree, path: &str)
    requires unused { tree.old.log.changes ≡ [] }
{
    let Ok(path) = Path::parse(page.alloc(), path) else {
        return page.fail();
    };
    page.need(tree.put_other(page.alloc(), &path).is_ok());
}
