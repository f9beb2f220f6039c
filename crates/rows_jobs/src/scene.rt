//! The thing of a row, and the run of its setting.
ghost use Rattle.std.specs.Prelude.{◌≡◌, ◌≤◌, []};

use crate::images::tell_images;
use crate::telling::{Answer, tell_steps};
use mem_tree::MemTree;
use rows_page::{Page, number, two_fields};
use rows_trees::{fresh, put_file, put_folder, put_link};

/// The thing whose mode is set.
pub const THING: &str = "/a/x";

/// What comes of a row.
pub fn tell_row(page: &mut Page, row: &str) {
    match fresh(page.alloc(), 0) {
        Ok(tree) => tell_setting(page, tree, row),
        Err(_error) => page.fail(),
    }
}

fn tell_setting(page: &mut Page, tree: MemTree, row: &str)
    requires unused { tree.log.changes ≡ [] }
{
    let (thing, row) = two_fields(row, '|');
    let (before, row) = two_fields(row, '|');
    let (mode, row) = two_fields(row, '|');
    let (faults, answer) = two_fields(row, '|');
    let mut tree = tree;
    put_thing(page, &mut tree, thing, octal(before));
    name_faults(page, &mut tree, faults);
    tell_steps(page, &mut tree, octal(mode), answer_of(answer));
    tell_images(page, &tree);
}

fn put_thing(page: &mut Page, tree: &mut MemTree, thing: &str, mode: u16)
    requires unused { tree.old.log.changes ≡ [] }
    requires mode { mode ≤ 0o7777 }
{
    put_folder(page, tree, "/a", 0o755, 0);
    match thing {
        "file" => put_file(page, tree, THING, mode, 0, b"abc"),
        "folder" => put_folder(page, tree, THING, mode, 0),
        "link" => put_link(page, tree, THING, "/a"),
        "none" => {}
        _ => page.fail(),
    }
}

/// The calls with these numbers fault.
fn name_faults(page: &mut Page, tree: &mut MemTree, faults: &str) {
    let mut numbers = Vec::new(page.alloc());
    for fault in faults.split(',') {
        page.need(numbers.push(number(fault) as u64).is_ok());
    }
    page.need(tree.fail_calls(page.alloc(), numbers.as_slice()).is_ok());
}

fn octal(field: &str) -> u16
    ensures { result ≤ 0o7777 }
{
    u16::from_str_radix(field, 8).unwrap_or(0).min(0o7777)
}

fn answer_of(word: &str) -> Answer {
    match word {
        "retry" => Answer::Retry,
        "abort" => Answer::Abort,
        "all" => Answer::PassOver,
        _ => Answer::Skip,
    }
}
