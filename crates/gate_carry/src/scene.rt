//! The rows: a thing on one mount, what stands at its target on another, how many bytes that mount has room
//! for, the numbers of the tree's calls that fault, and what is answered.
ghost use Rattle.std.specs.Prelude.{◌≡◌, ◌<◌, [], length};

use crate::images::tell_images;
use crate::judging::{Thing, tell_left};
use crate::telling::{Answers, tell_steps};
use mc_text::Path;
use mem_tree::MemTree;
use rows_page::{Page, number, two_fields};
use rows_trees::{fresh, mode_of, put_file, put_folder, put_link, put_other};

/// What is carried, and where to. The folders lie on two mounts.
pub const SOURCE: &str = "/m1/x";

pub const TARGET: &str = "/m2/x";

/// Each row with what comes of it.
pub fn tell_rows(page: &mut Page, rows: &str) {
    for row in rows.lines() {
        page.put(row);
        page.put("\n");
        tell_row(page, row);
    }
}

fn tell_row(page: &mut Page, row: &str) {
    match fresh(page.alloc(), 0) {
        Ok(tree) => tell_carrying(page, tree, row),
        Err(_error) => page.fail(),
    }
}

fn tell_carrying(page: &mut Page, tree: MemTree, row: &str)
    requires unused { tree.log.changes ≡ [] }
    requires few { length tree.log.opening.mounts < 1000 }
{
    let (source, row) = two_fields(row, '|');
    let (target, row) = two_fields(row, '|');
    let (room, row) = two_fields(row, '|');
    let (faults, answers) = two_fields(row, '|');
    let mut tree = tree;
    plant_mounts(page, &mut tree, room);
    plant(page, &mut tree, SOURCE, source);
    plant(page, &mut tree, TARGET, target);
    name_faults(page, &mut tree, faults);
    tell_steps(page, &mut tree, Answers::new(answers));
    let moved = Thing::new(page, source);
    tell_left(page, &mut tree, &moved);
    tell_images(page, &tree, &moved);
}

/// Two mounts; the second has room for so many bytes, if there is a limit.
fn plant_mounts(page: &mut Page, tree: &mut MemTree, room: &str)
    requires unused { tree.old.log.changes ≡ [] }
    requires few { length tree.old.log.opening.mounts < 1000 }
    ensures { tree.new.log.changes ≡ [] }
{
    let room = room.parse().unwrap_or(u64::MAX);
    mount(page, tree, room);
    put_folder(page, tree, "/m1", 0o755, 0);
}

fn mount(page: &mut Page, tree: &mut MemTree, room: u64)
    requires unused { tree.old.log.changes ≡ [] }
    requires few { length tree.old.log.opening.mounts < 1000 }
    ensures { tree.new.log.changes ≡ [] }
{
    let Ok(second) = Path::parse(page.alloc(), "/m2") else {
        return page.fail();
    };
    page.need(tree.mount(page.alloc(), &second, room).is_ok());
}

/// The thing that a field spells: its kind, and its mode and number of bytes, or its text.
fn plant(page: &mut Page, tree: &mut MemTree, path: &str, field: &str)
    requires unused { tree.old.log.changes ≡ [] }
    ensures { tree.new.log.changes ≡ [] }
{
    let (kind, facts) = two_fields(field, ' ');
    match kind {
        "file" => plant_file(page, tree, path, facts),
        "link" => put_link(page, tree, path, facts),
        "folder" => put_folder(page, tree, path, 0o755, 0),
        "other" => put_other(page, tree, path),
        "none" => {}
        _ => page.fail(),
    }
}

fn plant_file(page: &mut Page, tree: &mut MemTree, path: &str, facts: &str)
    requires unused { tree.old.log.changes ≡ [] }
    ensures { tree.new.log.changes ≡ [] }
{
    let (mode, size) = two_fields(facts, ' ');
    let bytes = bytes_of(page, number(size));
    put_file(page, tree, path, mode_of(mode), 0, bytes.as_slice());
}

/// So many bytes, each as its place tells.
pub fn bytes_of(page: &mut Page, count: usize) -> Vec<u8> {
    let mut bytes = Vec::new(page.alloc());
    for place in 0..count {
        page.need(bytes.push((place % 251) as u8).is_ok());
    }
    bytes
}

/// The calls with these numbers fault.
fn name_faults(page: &mut Page, tree: &mut MemTree, faults: &str) {
    let mut numbers = Vec::new(page.alloc());
    for fault in faults.split(',') {
        page.need(numbers.push(number(fault) as u64).is_ok());
    }
    page.need(tree.fail_calls(page.alloc(), numbers.as_slice()).is_ok());
}
