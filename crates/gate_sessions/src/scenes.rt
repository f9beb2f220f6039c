//! The trees that the rows begin with.
ghost use Rattle.std.specs.Prelude.{◌≡◌, ◌<◌, [], length};

use crate::rows::{Row, failing};
use mc_text::Path;
use mem_tree::MemTree;
use rows_crashes::FileThings;
use rows_page::{Page, number};
use rows_trees::put_things;
use std::alloc::Global;

/// Puts the tree of a row on a disk with nothing but its root, and lets the calls fail that the row names.
pub fn plant(page: &mut Page, tree: &mut MemTree, row: &Row<'_>)
    requires unused { tree.old.log.changes ≡ [] }
    requires few { length tree.old.log.opening.mounts < 1000 }
{
    plant_scene(page, tree, row.tree);
    fail_calls(page, tree, row, "tree");
    fail_calls(page, tree, row, "shown");
}

fn fail_calls(page: &mut Page, tree: &mut MemTree, row: &Row<'_>, device: &str) {
    if row.device == device {
        let numbers = failing(page, row, device);
        page.need(tree.fail_calls(page.alloc(), numbers.as_slice()).is_ok());
    }
}

fn plant_scene(page: &mut Page, tree: &mut MemTree, scene: &str)
    requires unused { tree.old.log.changes ≡ [] }
    requires few { length tree.old.log.opening.mounts < 1000 }
{
    match scene.strip_prefix("room for ") {
        Some(room) => plant_beside_mount(page, tree, room, "folder /s 755\nfile /s/x 640 hi"),
        None => plant_twin_or_things(page, tree, scene),
    }
}

fn plant_twin_or_things(page: &mut Page, tree: &mut MemTree, scene: &str)
    requires unused { tree.old.log.changes ≡ [] }
    requires few { length tree.old.log.opening.mounts < 1000 }
{
    match scene.strip_prefix("empty twin, room for ") {
        Some(room) => plant_beside_mount(page, tree, room, "folder /s 755\nfolder /s/t 755"),
        None => put_things::<FileThings>(page, tree, things_in(scene)),
    }
}

/// These things, in the folder `/s`, and the folder `/t` on a mount whose files may have so many bytes.
fn plant_beside_mount(page: &mut Page, tree: &mut MemTree, room: &str, things: &str)
    requires unused { tree.old.log.changes ≡ [] }
    requires few { length tree.old.log.opening.mounts < 1000 }
{
    let mounted = mount(page.alloc(), tree, number(room) as u64);
    page.need(mounted);
    put_things::<FileThings>(page, tree, things);
}

fn mount(alloc: Global, tree: &mut MemTree, room: u64) -> bool
    requires unused { tree.old.log.changes ≡ [] }
    requires few { length tree.old.log.opening.mounts < 1000 }
    ensures { tree.new.log.changes ≡ [] }
{
    match Path::parse(alloc, "/t") {
        Ok(path) => tree.mount(alloc, &path, room).is_ok(),
        Err(_error) => false,
    }
}

/// What stands in a tree by its name, line by line. `things to view` are a file of twelve lines, one that
/// may not be read, a pipe, a folder, and links to the first, to the folder and to nothing.
fn things_in(scene: &str) -> &'static str {
    match scene {
        "one file" => "folder /a 755\nfile /a/x 644 hi",
        "fixed folder" => "folder /a 555\nfile /a/x 644 hi",
        "two files" => "folder /a 755\nfile /a/x 644 hi\nfile /a/y 644 ho",
        "standing files" => {
            "folder /s 755\nfile /s/x 640 new\nfile /s/y 644 more\nfolder /t 755\nfile /t/x 600 old\n\
             file /t/y 604 less!"
        }
        "standing things" => {
            "folder /s 755\nfile /s/x 640 new\nlink /s/y x\nfolder /t 755\nfile /t/x 600 old\n\
             file /t/y 604 less!"
        }
        "standing links" => {
            "folder /s 755\nlink /s/l x\nlink /s/m far\nfile /s/n 640 new\nfolder /t 755\n\
             file /t/l 600 old\nlink /t/m x\nlink /t/n old"
        }
        "special things" => {
            "folder /s 755\nother /s/a\nfile /s/b 640 new\nother /s/c\nfolder /t 755\nfile /t/b 600 old"
        }
        "folders among files" => {
            "folder /s 755\nfolder /s/d 700\nfolder /s/e 755\nfile /s/x 640 new\nfile /s/y 644 more\n\
             folder /t 755\nfolder /t/x 711"
        }
        "standing tree" => {
            "folder /s 755\nfolder /s/a 750\nfolder /s/a/d 700\nfile /s/a/d/z 644 hi\nfile /s/a/x 640 new\n\
             file /s/a/y 644 more\nfile /s/b 640 hey\nfolder /a 711\nfolder /a/d 755\nfile /a/x 600 old\n\
             file /a/y 604 less!\nfile /b 600 old"
        }
        "folders in trouble" => {
            "folder /s 755\nfolder /s/d 750\nfolder /s/d/e 700\nfile /s/d/e/z 644 hi\nfile /s/d/x 640 new\n\
             file /s/d/y 644 more\nfolder /s/f 755\nfile /s/f/x 640 new\nfolder /t 755\nfolder /t/d 711\n\
             folder /t/d/e 755\nfolder /t/d/x 755\nfolder /t/f 755\nfolder /t/f/x 755"
        }
        "no files" => "folder /a 755\nlink /a/l x\nother /a/p",
        "things to view" => {
            "folder /a 755\nfolder /a/d 755\n\
             file /a/x 644 \
             one\\ntwo\\nthree\\nfour\\nfive\\nsix\\nseven\\neight\\nnine\\nten\\neleven\\ntwelve\\n\n\
             file /a/u 0 no\nother /a/p\nlink /a/l x\nlink /a/m d\nlink /a/n none"
        }
        "folders" => {
            "folder /a 755\nfolder /a/d 755\nfolder /a/d/e 755\nfile /a/d/e/z 644 hi\nfile /a/d/x 644 hi\n\
             file /a/y 644 ho"
        }
        "fixed inner folder" => {
            "folder /a 755\nfolder /a/d 755\nfolder /a/d/e 555\nfile /a/d/e/z 644 hi\nfile /a/d/x 644 hi\n\
             file /a/y 644 ho"
        }
        "fixed tree" => {
            "folder /a 755\nfolder /s 755\nfolder /s/d 555\nlink /s/d/l x\nfile /s/d/x 640 hi"
        }
        "unread tree" => {
            "folder /a 755\nfolder /s 755\nfolder /s/d 555\nlink /s/d/l x\nfile /s/d/u 0 no\n\
             file /s/d/x 640 hi"
        }
        "unread inner tree" => {
            "folder /a 755\nfolder /s 755\nfolder /s/d 755\nfolder /s/d/e 700\nother /s/d/e/p\n\
             file /s/d/e/u 0 no\nfile /s/d/e/v 0 no\nfile /s/d/x 640 hi"
        }
        _ => "no such tree",
    }
}
