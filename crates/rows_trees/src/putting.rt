//! Things that are on the disk of a tree in memory before the first call.
ghost use Rattle.std.specs.Prelude.{◌≡◌, ◌<◌, ◌≤◌, [], length, IfOk};
ghost use Rattle.tree_trait.specs.Answers.{IsLinkText};

use crate::planting::may_be_link_text;
use mc_text::{NoMemory, Path};
use mem_tree::MemTree;
use rows_page::Page;
use std::alloc::Global;

/// A tree in memory with nothing but its root. `now` is the time that it gives to files.
pub fn fresh(alloc: Global, now: i64) -> Result<MemTree, NoMemory>
    ensures unused { IfOk result (λ tree. tree.log.changes ≡ []) }
    ensures few { IfOk result (λ tree. length tree.log.opening.mounts < 1000) }
{
    MemTree::new(alloc, now)
}

/// A folder, and how many things in it have names that aren't UTF-8.
pub fn put_folder(page: &mut Page, tree: &mut MemTree, path: &str, mode: u16, unnamed: u64)
    requires unused { tree.old.log.changes ≡ [] }
    requires mode { mode ≤ 0o7777 }
    ensures { tree.new.log.changes ≡ [] }
{
    let Ok(path) = Path::parse(page.alloc(), path) else {
        return page.fail();
    };
    page.need(tree.put_folder(page.alloc(), &path, mode, unnamed).is_ok());
}

pub fn put_file(
    page: &mut Page,
    tree: &mut MemTree,
    path: &str,
    mode: u16,
    mtime: i64,
    bytes: &[u8],
)
    requires unused { tree.old.log.changes ≡ [] }
    requires mode { mode ≤ 0o7777 }
    ensures { tree.new.log.changes ≡ [] }
{
    let Ok(path) = Path::parse(page.alloc(), path) else {
        return page.fail();
    };
    page.need(
        tree.put_file(page.alloc(), &path, mode, mtime, bytes)
            .is_ok(),
    );
}

pub fn put_link(page: &mut Page, tree: &mut MemTree, path: &str, text: &str)
    requires { tree.old.log.changes ≡ [] }
    ensures { tree.new.log.changes ≡ [] }
{
    if !may_be_link_text(text) {
        return page.fail();
    }
    put_link_text(page, tree, path, text);
}

fn put_link_text(page: &mut Page, tree: &mut MemTree, path: &str, text: &str)
    requires unused { tree.old.log.changes ≡ [] }
    requires link_text { IsLinkText text.now }
    ensures { tree.new.log.changes ≡ [] }
{
    let Ok(path) = Path::parse(page.alloc(), path) else {
        return page.fail();
    };
    page.need(tree.put_link(page.alloc(), &path, text).is_ok());
}

/// A thing that is neither file, folder nor link.
pub fn put_other(page: &mut Page, tree: &mut MemTree, path: &str)
    requires { tree.old.log.changes ≡ [] }
    ensures { tree.new.log.changes ≡ [] }
{
    let Ok(path) = Path::parse(page.alloc(), path) else {
        return page.fail();
    };
    page.need(tree.put_other(page.alloc(), &path).is_ok());
}
