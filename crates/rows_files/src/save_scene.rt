//! The tree of a row, and the run of its save.
ghost use Rattle.std.specs.Prelude.{◌≡◌, ◌<◌, ◌≤◌, [], length};

use crate::save_images::tell_images;
use crate::save_telling::tell_steps;
use crate::telling::Answer;
use mc_text::{Bytes, Path};
use mem_tree::MemTree;
use rows_page::{Page, number, two_fields};
use rows_trees::{fresh, mode_of, put_file, put_folder, put_link, put_other};

/// The file that is saved.
pub const TARGET: &str = "/t/x";

/// The folder that holds it.
pub const FOLDER: &str = "/t";

/// What an old file holds.
pub const OLD: &[u8] = b"old";

/// What comes of a row.
pub fn tell_row(page: &mut Page, row: &str) {
    match fresh(page.alloc(), 0) {
        Ok(tree) => tell_save(page, tree, row),
        Err(_error) => page.fail(),
    }
}

fn tell_save(page: &mut Page, tree: MemTree, row: &str)
    requires unused { tree.log.changes ≡ [] }
    requires few { length tree.log.opening.mounts < 1000 }
{
    let (thing, row) = two_fields(row, '|');
    let (mode, row) = two_fields(row, '|');
    let (size, row) = two_fields(row, '|');
    let (room, row) = two_fields(row, '|');
    let (taken, row) = two_fields(row, '|');
    let (faults, answer) = two_fields(row, '|');
    let mut tree = tree;
    put_target_folder(page, &mut tree, room);
    put_thing(page, &mut tree, thing, mode_of(mode));
    take_names(page, &mut tree, number(taken));
    let bytes = some_bytes(page, number(size));
    save(page, &mut tree, bytes, faults, answer);
}

fn save(page: &mut Page, tree: &mut MemTree, bytes: Bytes, faults: &str, answer: &str) {
    match bytes.copy(page.alloc()) {
        Ok(saved) => {
            fail_calls(page, tree, faults);
            tell_steps(page, tree, saved, answer_of(answer));
            tell_images(page, tree, bytes.0.as_slice());
        }
        Err(_error) => page.fail(),
    }
}

/// The folder, of a mount of its own where a room is spelled.
fn put_target_folder(page: &mut Page, tree: &mut MemTree, room: &str)
    requires unused { tree.old.log.changes ≡ [] }
    requires few { length tree.old.log.opening.mounts < 1000 }
    ensures { tree.new.log.changes ≡ [] }
{
    if room.is_empty() {
        return put_folder(page, tree, FOLDER, 0o755, 0);
    }
    let Ok(folder) = Path::parse(page.alloc(), FOLDER) else {
        return page.fail();
    };
    page.need(
        tree.mount(page.alloc(), &folder, number(room) as u64)
            .is_ok(),
    );
}

fn put_thing(page: &mut Page, tree: &mut MemTree, thing: &str, mode: u16)
    requires unused { tree.old.log.changes ≡ [] }
    requires mode { mode ≤ 0o7777 }
    ensures { tree.new.log.changes ≡ [] }
{
    match thing {
        "file" => put_file(page, tree, TARGET, mode, 0, OLD),
        "folder" => put_folder(page, tree, TARGET, mode, 0),
        "link" => put_link(page, tree, TARGET, FOLDER),
        "other" => put_other(page, tree, TARGET),
        "none" => {}
        _ => page.fail(),
    }
}

/// Files with the first so many names that a part of job 1 may have.
fn take_names(page: &mut Page, tree: &mut MemTree, count: usize)
    requires { tree.old.log.changes ≡ [] }
{
    for number in 0..count {
        let mut path = Page::new(page.alloc());
        path.tell(format_args!("{FOLDER}/.mc.1.{number}.part"));
        put_file(page, tree, path.text(), 0o600, 0, b"");
    }
}

/// So many bytes, of which neighbours differ.
fn some_bytes(page: &mut Page, size: usize) -> Bytes {
    let mut bytes = Vec::new(page.alloc());
    let mut byte = 0u8;
    for _ in 0..size {
        page.need(bytes.push(byte).is_ok());
        byte = byte.wrapping_add(1);
    }
    Bytes(bytes)
}

/// The calls with these numbers fault.
fn fail_calls(page: &mut Page, tree: &mut MemTree, faults: &str) {
    let mut numbers = Vec::new(page.alloc());
    for fault in faults.split(',') {
        page.need(numbers.push(number(fault) as u64).is_ok());
    }
    page.need(tree.fail_calls(page.alloc(), numbers.as_slice()).is_ok());
}

fn answer_of(word: &str) -> Answer {
    match word {
        "retry" => Answer::Retry,
        "abort" => Answer::Abort,
        _ => Answer::Skip,
    }
}
