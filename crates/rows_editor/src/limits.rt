//! The limits: how large a text may be, and how deep an undo goes.
use gap_text::{Change, Undo};
use mc_edit::{EditCmd, Editor, LARGEST_TEXT};
use mc_text::{Bytes, NoMemory};
use rows_page::Page;
use std::alloc::Global;

/// A line for each limit.
pub fn tell_limits(page: &mut Page) {
    tell_too_large(page, LARGEST_TEXT + 1);
    tell_largest(page, LARGEST_TEXT);
    tell_two_notes(page);
}

/// A text of so many letters.
fn letters(page: &mut Page, count: usize) -> Vec<u8> {
    match vec![in page.alloc(); b'a'; count] {
        Ok(letters) => letters,
        Err(_error) => {
            page.fail();
            Vec::new(page.alloc())
        }
    }
}

fn tell_too_large(page: &mut Page, size: usize) {
    page.put("start with 16777217 bytes: ");
    let letters = letters(page, size);
    match Editor::start(page.alloc(), letters.as_slice()) {
        Ok(_editor) => page.fail(),
        Err(error) => page.tell(error),
    }
    page.put("\n");
}

fn tell_largest(page: &mut Page, size: usize) {
    let letters = letters(page, size);
    match Editor::start(page.alloc(), letters.as_slice()) {
        Ok(mut editor) => tell_full(page, &mut editor),
        Err(_error) => page.fail(),
    }
}

/// A byte more than fits, and moves within one line of all bytes.
fn tell_full(page: &mut Page, editor: &mut Editor) {
    page.put("one byte more than 16777216: ");
    match editor.command(page.alloc(), &EditCmd::Insert('x')) {
        Ok(()) => page.fail(),
        Err(error) => page.tell(error),
    }
    page.put("\nright, down, end in one line: ");
    tell_place_after(page, editor, &EditCmd::Right);
    page.put(", ");
    tell_place_after(page, editor, &EditCmd::Down);
    page.put(", ");
    tell_place_after(page, editor, &EditCmd::LineEnd);
    page.put("\n");
}

fn tell_place_after(page: &mut Page, editor: &mut Editor, command: &EditCmd) {
    match editor.command(page.alloc(), command) {
        Ok(()) => page.tell(editor.point()),
        Err(_error) => page.fail(),
    }
}

fn tell_two_notes(page: &mut Page) {
    match Undo::new(page.alloc(), 1) {
        Ok(mut undo) => tell_undone(page, &mut undo),
        Err(_error) => page.fail(),
    }
}

/// What two undos take back of two changes.
fn tell_undone(page: &mut Page, undo: &mut Undo) {
    note(page, undo, 1);
    note(page, undo, 2);
    page.put("undo of depth 1 with two notes: ");
    tell_next_undone(page, undo);
    page.put(", ");
    tell_next_undone(page, undo);
    page.put("\n");
}

/// Notes a change that put one byte at a place.
fn note(page: &mut Page, undo: &mut Undo, at: usize) {
    match typed(page.alloc(), at) {
        Ok(change) => undo.note(change),
        Err(_error) => page.fail(),
    }
}

fn typed(alloc: Global, at: usize) -> Result<Change, NoMemory> {
    Ok(Change {
        at,
        removed: Bytes::from_slice(alloc, b"")?,
        inserted: Bytes::from_slice(alloc, b"x")?,
        before: at,
        after: at,
    })
}

fn tell_next_undone(page: &mut Page, undo: &mut Undo) {
    match undo.undo() {
        Ok(Some(change)) => page.put(name_of(change.at)),
        Ok(None) => page.put("nothing"),
        Err(_error) => page.fail(),
    }
}

fn name_of(at: usize) -> &'static str {
    match at {
        1 => "the first",
        2 => "the second",
        _ => "another",
    }
}
