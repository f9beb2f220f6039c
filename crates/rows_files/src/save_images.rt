//! What a crash leaves of the file at each moment of a save.
ghost use Rattle.std.specs.Prelude.{◌≤◌, length};

use crate::save_scene::{OLD, TARGET};
use mc_text::{Bits, Kind, Path};
use mem_tree::{Choice, Fill, MemTree};
use rows_page::Page;
use tree_trait::{Meta, ReadTree, TreeError};

/// After each number of calls, what stands at the target in each image: all that waits stands, none of it
/// does, or all but one change, each with all fills of what was written.
pub fn tell_images(page: &mut Page, tree: &MemTree, new: &[u8]) {
    for calls in 0..=tree.calls() {
        page.tell(format_args!("  after {calls} calls: "));
        let mut seen = Page::new(page.alloc());
        for fill in [Fill::Written, Fill::Nothing, Fill::Zeros, Fill::Junk(7)] {
            see_images(page, tree, calls, fill, new, &mut seen);
        }
        page.put(seen.text());
        page.put("\n");
    }
}

fn see_images(page: &mut Page, tree: &MemTree, calls: u64, fill: Fill, new: &[u8], seen: &mut Page)
    requires { calls ≤ length tree.now.log.changes }
{
    let all = stands(page, calls, calls, fill);
    see_image(page, tree, calls, &all, new, seen);
    let none = stands(page, 0, 0, fill);
    see_image(page, tree, calls, &none, new, seen);
    for lost in 0..calls {
        let others = stands(page, calls, lost, fill);
        see_image(page, tree, calls, &others, new, seen);
    }
}

/// The first so many changes stand, but for the one that is lost.
fn stands(page: &mut Page, calls: u64, lost: u64, fill: Fill) -> Choice {
    let mut keep = Vec::new(page.alloc());
    for place in 0..calls {
        page.need(keep.push(place != lost).is_ok());
    }
    let keep = Bits(keep);
    Choice { keep, fill }
}

fn see_image(
    page: &mut Page,
    tree: &MemTree,
    calls: u64,
    choice: &Choice,
    new: &[u8],
    seen: &mut Page,
)
    requires { calls ≤ length tree.now.log.changes }
{
    match tree.image(page.alloc(), calls, choice) {
        Ok(image) => see(page, image, new, seen),
        Err(_error) => page.fail(),
    }
}

/// Adds what stands at the target, unless it was seen before.
fn see(page: &mut Page, image: MemTree, new: &[u8], seen: &mut Page) {
    let mut image = image;
    let mut word = Page::new(page.alloc());
    tell_target(&mut word, &mut image, new);
    page.need(word.is_whole());
    if !seen.text().contains(word.text()) {
        if !seen.text().is_empty() {
            seen.put(" or ");
        }
        seen.put(word.text());
    }
}

fn tell_target<T: ReadTree>(word: &mut Page, tree: &mut T, new: &[u8]) {
    let Ok(path) = Path::parse(word.alloc(), TARGET) else {
        return word.fail();
    };
    match tree.stat(word.alloc(), &path) {
        Err(TreeError::Missing) => word.put("nothing"),
        Err(_error) => word.fail(),
        Ok(meta) => tell_thing(word, tree, &path, meta, new),
    }
}

fn tell_thing<T: ReadTree>(word: &mut Page, tree: &mut T, path: &Path, meta: Meta, new: &[u8]) {
    match meta.kind {
        Kind::File => {
            tell_bytes(word, tree, path, meta.size, new);
            let mode = meta.mode;
            word.tell(format_args!(" {mode:o}"));
        }
        Kind::Folder => word.put("folder"),
        Kind::Link => word.put("link"),
        Kind::Other => word.put("other"),
    }
}

/// Whether a file has the old bytes or the new ones, whole.
fn tell_bytes<T: ReadTree>(word: &mut Page, tree: &mut T, path: &Path, size: u64, new: &[u8]) {
    let mut room = Vec::new(word.alloc());
    for _ in 0..size {
        word.need(room.push(0u8).is_ok());
    }
    match tree.read_at(word.alloc(), path, 0, room.as_mut_slice()) {
        Ok(_count) => word.put(whose(room.as_slice(), new)),
        Err(_error) => word.fail(),
    }
}

fn whose(bytes: &[u8], new: &[u8]) -> &'static str {
    if bytes == new {
        "new"
    } else if bytes == OLD {
        "old"
    } else {
        "torn"
    }
}
