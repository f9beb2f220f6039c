//! The rows: what is copied and onto what, and the lines of each.
ghost use Rattle.std.specs.Prelude.{◌≡◌, ◌<◌, [], length};

use crate::images::tell_images;
use crate::judging::{children_of_folder, what_stands};
use crate::scene::{Original, SOURCE, TARGET, fresh, plant, take_names};
use crate::shrunk::Shrunk;
use crate::telling::{Answer, tell_steps};
use mem_tree::MemTree;
use rows_page::Page;
use tree_trait::Tree;

/// A copy: of a file of this size and mode, onto a mount with so much room, where the tree's
/// call of this number faults.
#[derive(Clone, Copy)]
struct Row {
    title: &'static str,
    size: u32,
    mode: u16,
    room: Option<u64>,
    fault: Option<u64>,
    answer: Answer,
}

impl Row {
    /// A row without a limit or a fault, whose troubles are skipped.
    fn plain(title: &'static str, size: u32, mode: u16) -> Row {
        Row {
            title,
            size,
            mode,
            room: None,
            fault: None,
            answer: Answer::Skip,
        }
    }
}

/// The rows that are copied into an empty folder. The tree's calls of a copy of one chunk are: five looks,
/// the making of the part, a read, a write, the sync of the part, its renaming, and the sync of the folder.
fn rows() -> [Row; 10] {
    [
        Row::plain("an empty file of mode 640", 0, 0o640),
        Row::plain("65536 bytes", 65_536, 0o644),
        Row::plain("65537 bytes", 65_537, 0o644),
        Row::plain("mode 444, which its owner may not write", 5, 0o444),
        Row {
            room: Some(10),
            ..Row::plain("11 bytes onto a mount of 10", 11, 0o644)
        },
        Row {
            fault: Some(8),
            answer: Answer::Retry,
            ..Row::plain("a write that faults", 5, 0o644)
        },
        Row {
            fault: Some(8),
            ..Row::plain("a write that faults and is skipped", 5, 0o644)
        },
        Row {
            fault: Some(11),
            answer: Answer::Retry,
            ..Row::plain("a sync of the folder that faults", 5, 0o644)
        },
        Row {
            answer: Answer::Abort,
            ..Row::plain("an abort after the first chunk", 65_537, 0o644)
        },
        Row {
            fault: Some(9),
            answer: Answer::Abort,
            ..Row::plain("an abort whose removal of the part faults", 5, 0o644)
        },
    ]
}

/// The steps of each copy, what it leaves, and its images.
pub fn tell_rows(page: &mut Page) {
    for row in rows() {
        let original = Original::new(page, row.size, row.mode);
        match fresh(page.alloc()) {
            Ok(tree) => tell_row(page, tree, &row, &original),
            Err(_error) => page.fail(),
        }
    }
}

fn tell_row(page: &mut Page, tree: MemTree, row: &Row, original: &Original)
    requires unused { tree.log.changes ≡ [] }
    requires few { length tree.log.opening.mounts < 1000 }
{
    let mut tree = tree;
    plant(page, &mut tree, original, row.room);
    let noted = match row.fault {
        Some(number) => tree.fail_calls(page.alloc(), &[number]).is_ok(),
        None => true,
    };
    page.need(noted);
    tell_copy(page, &mut tree, row.title, original, row.answer);
    tell_images(page, &tree, original);
}

/// The title, the steps of a copy, and what it leaves.
fn tell_copy<T: Tree>(
    page: &mut Page,
    tree: &mut T,
    title: &str,
    original: &Original,
    answer: Answer,
) {
    page.put(title);
    page.put("\n");
    tell_steps(page, tree, answer);
    tell_left(page, tree, original);
}

/// What stands at source and target, and how many names are in the folder.
fn tell_left<T: Tree>(page: &mut Page, tree: &mut T, original: &Original) {
    let source = what_stands(page, tree, SOURCE, original);
    let target = what_stands(page, tree, TARGET, original);
    let names = match children_of_folder(page, tree) {
        Some(children) => children.names.as_slice().len(),
        None => 0,
    };
    page.tell(format_args!(
        "  left: source {source:?}, target {target:?}, names in the folder {names}\n"
    ));
}

/// A copy where all names of a part are taken.
pub fn tell_taken(page: &mut Page) {
    let original = Original::new(page, 5, 0o644);
    match fresh(page.alloc()) {
        Ok(tree) => tell_taken_in(page, tree, &original),
        Err(_error) => page.fail(),
    }
}

fn tell_taken_in(page: &mut Page, tree: MemTree, original: &Original)
    requires unused { tree.log.changes ≡ [] }
    requires few { length tree.log.opening.mounts < 1000 }
{
    let mut tree = tree;
    plant(page, &mut tree, original, None);
    take_names(page, &mut tree, 1000);
    let before = tree.calls();
    let title = "all names of a part are taken";
    tell_copy(page, &mut tree, title, original, Answer::Skip);
    let made = tree.calls().saturating_sub(before);
    page.tell(format_args!("  changing calls in all: {made}\n"));
}

/// A copy whose source ends before it should.
pub fn tell_shrunk(page: &mut Page) {
    let original = Original::new(page, 70_000, 0o644);
    match fresh(page.alloc()) {
        Ok(tree) => tell_shrunk_in(page, tree, &original),
        Err(_error) => page.fail(),
    }
}

/// What is left is seen without the cover.
fn tell_shrunk_in(page: &mut Page, tree: MemTree, original: &Original)
    requires unused { tree.log.changes ≡ [] }
    requires few { length tree.log.opening.mounts < 1000 }
{
    let mut tree = tree;
    plant(page, &mut tree, original, None);
    let mut cover = Shrunk::new(tree, 65_536);
    page.put("a source that is said to have 70000 bytes, and ends after 65536\n");
    tell_steps(page, &mut cover, Answer::Skip);
    let mut tree = cover.into_inner();
    tell_left(page, &mut tree, original);
    tell_images(page, &tree, original);
}
