//! What a crash may leave at a path, at each moment of a copy.
ghost use Rattle.std.specs.Prelude.{◌≤◌, length};

use crate::showing::tell_at;
use mc_text::{Bits, Path};
use mem_tree::{Choice, Fill, MemTree};
use rows_page::Page;
use rows_trees::path_of;
use std::alloc::Global;

/// What a crash may leave at this path, after so many changing calls: a line where that is other than before.
pub fn tell_crashes(page: &mut Page, tree: &MemTree, path: &str) {
    if path.is_empty() {
        return;
    }
    match path_of(page, path) {
        Some(path) => tell_moments(page, tree, &path),
        None => page.fail(),
    }
}

fn tell_moments(page: &mut Page, tree: &MemTree, path: &Path) {
    let mut before = Page::new(page.alloc());
    for calls in 0..=tree.calls() {
        let now = left_after(page.alloc(), tree, calls, path);
        if now.text() != before.text() {
            page.tell(format_args!("  after {calls}: {}\n", now.text()));
        }
        before = now;
    }
}

/// What may be left after so many calls, each once: where no change is kept that no sync has settled, where
/// all are but one, and where all are.
fn left_after(alloc: Global, tree: &MemTree, calls: u64, path: &Path) -> Page
    requires { calls ≤ length tree.now.log.changes }
{
    let mut left = Page::new(alloc);
    note_image(&mut left, tree, calls, path, kept(alloc, 0, 0));
    for lost in 0..=calls {
        note_image(&mut left, tree, calls, path, kept(alloc, calls, lost));
    }
    left
}

/// What this image has there, unless it is told already.
fn note_image(left: &mut Page, tree: &MemTree, calls: u64, path: &Path, choice: Option<Choice>)
    requires { calls ≤ length tree.now.log.changes }
{
    let mut thing = Page::new(left.alloc());
    match choice {
        Some(choice) => tell_image(&mut thing, tree, calls, path, &choice),
        None => left.fail(),
    }
    if left.text().contains(thing.text()) {
        return;
    }
    if !left.text().is_empty() {
        left.put(" or ");
    }
    left.put(thing.text());
}

fn tell_image(thing: &mut Page, tree: &MemTree, calls: u64, path: &Path, choice: &Choice)
    requires { calls ≤ length tree.now.log.changes }
{
    match tree.image(thing.alloc(), calls, choice) {
        Ok(mut image) => tell_at(thing, &mut image, path),
        Err(_error) => thing.fail(),
    }
}

/// The first so many changes are kept, but for the one of this place, if it is one of them.
fn kept(alloc: Global, calls: u64, lost: u64) -> Option<Choice> {
    let mut bits = Vec::new(alloc);
    for place in 0..calls {
        if bits.push(place != lost).is_err() {
            return None;
        }
    }
    Some(Choice {
        keep: Bits(bits),
        fill: Fill::Nothing,
    })
}
