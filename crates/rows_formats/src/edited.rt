//! Rows of the text of an editor, and of its undo.
use gap_text::{Change, GapText, Undo};
use mc_text::Bytes;
use rows_page::{Page, number, two_fields};

pub fn answer(page: &mut Page, row: &str) {
    let (call, fields) = two_fields(row, '|');
    match call {
        "edits" => tell_edits(page, fields),
        "find" => tell_found(page, fields),
        "range" => tell_range(page, fields),
        "undo" => tell_undone(page, fields),
        _ => page.fail(),
    }
}

/// Edits with `;` between each two, and what stands after each, with a bar at the point.
fn tell_edits(page: &mut Page, edits: &str) {
    let mut text = GapText::new(page.alloc());
    for edit in edits.split(';') {
        let edited = edit_text(&mut text, edit);
        page.need(edited);
        tell_text(page, &text);
    }
}

/// A place to go to, how many bytes are deleted behind it, and what is inserted there; whether that was done.
fn edit_text(text: &mut GapText, edit: &str) -> bool {
    let (at, change) = two_fields(edit, ' ');
    let (count, inserted) = two_fields(change, ' ');
    let (at, count) = (number(at), number(count));
    if at > text.len() || count > text.len() - at {
        return false;
    }
    text.move_to(at);
    text.delete(count);
    text.insert(inserted.as_bytes()).is_ok()
}

fn tell_text(page: &mut Page, text: &GapText) {
    match text.to_bytes(page.alloc()) {
        Ok(bytes) => tell_halves(page, bytes.0.as_slice().split_at(text.point())),
        Err(_error) => page.fail(),
    }
}

fn tell_halves(page: &mut Page, halves: (&[u8], &[u8])) {
    tell_bytes(page, halves.0);
    page.put("|");
    tell_bytes(page, halves.1);
    page.put(";");
}

fn tell_bytes(page: &mut Page, bytes: &[u8]) {
    match String::from_utf8_lossy(page.alloc(), bytes) {
        Ok(text) => page.tell(text),
        Err(_error) => page.fail(),
    }
}

/// A text, a place, and bytes: where they are found from the place on, with the point at each place of the
/// text. An answer is told where it isn't that of the point before.
fn tell_found(page: &mut Page, fields: &str) {
    let (text, fields) = two_fields(fields, '|');
    let (from, bytes) = two_fields(fields, '|');
    match GapText::from_bytes(page.alloc(), text.as_bytes()) {
        Ok(text) => find_at_each(page, text, number(from), bytes.as_bytes()),
        Err(_error) => page.fail(),
    }
}

fn find_at_each(page: &mut Page, text: GapText, from: usize, bytes: &[u8]) {
    let mut text = text;
    let mut last = None;
    for point in 0..text.len().saturating_add(1) {
        let place = found_at(&mut text, point, from, bytes);
        if last != Some(place) {
            tell_place(page, point, place);
        }
        last = Some(place);
    }
}

fn found_at(text: &mut GapText, point: usize, from: usize, bytes: &[u8]) -> Option<usize> {
    if point <= text.len() {
        text.move_to(point);
    }
    text.find(from, bytes)
}

fn tell_place(page: &mut Page, point: usize, place: Option<usize>) {
    match place {
        Some(place) => page.tell(format_args!("\n{point}: {place}")),
        None => page.tell(format_args!("\n{point}: nowhere")),
    }
}

/// A text, a place of the point, and two places: the bytes between them, and the byte at the first.
fn tell_range(page: &mut Page, fields: &str) {
    let (text, places) = two_fields(fields, '|');
    let (point, places) = two_fields(places, ' ');
    let (from, to) = two_fields(places, ' ');
    match GapText::from_bytes(page.alloc(), text.as_bytes()) {
        Ok(text) => tell_between(page, text, number(point), number(from), number(to)),
        Err(_error) => page.fail(),
    }
}

fn tell_between(page: &mut Page, text: GapText, point: usize, from: usize, to: usize) {
    let mut text = text;
    if point > text.len() || from >= to || to > text.len() {
        return page.fail();
    }
    text.move_to(point);
    match text.range(page.alloc(), from, to) {
        Ok(bytes) => tell_bytes(page, bytes.0.as_slice()),
        Err(_error) => page.fail(),
    }
    page.tell(format_args!(" {}", char::from(text.byte_at(from))));
}

/// A depth, and steps: the number of a change that is noted, `undo` or `redo`. Told is which
/// change each of these shows.
fn tell_undone(page: &mut Page, fields: &str) {
    let (depth, steps) = two_fields(fields, '|');
    match Undo::new(page.alloc(), number(depth).max(1)) {
        Ok(undo) => step_through(page, undo, steps),
        Err(_error) => page.fail(),
    }
}

fn step_through(page: &mut Page, undo: Undo, steps: &str) {
    let mut undo = undo;
    for step in steps.split(' ') {
        match step {
            "undo" => tell_undo(page, &mut undo),
            "redo" => tell_change(page, undo.redo()),
            _ => note(page, &mut undo, number(step)),
        }
    }
}

fn tell_undo(page: &mut Page, undo: &mut Undo) {
    match undo.undo() {
        Ok(change) => tell_change(page, change),
        Err(_error) => page.fail(),
    }
}

fn tell_change(page: &mut Page, change: Option<&Change>) {
    match change {
        Some(change) => page.tell(format_args!("{}, ", change.at)),
        None => page.put("none, "),
    }
}

/// Notes a change that put one byte at a place.
fn note(page: &mut Page, undo: &mut Undo, at: usize) {
    match Bytes::from_slice(page.alloc(), b"x") {
        Ok(inserted) => undo.note(Change {
            at,
            removed: Bytes(Vec::new(page.alloc())),
            inserted,
            before: at,
            after: at,
        }),
        Err(_error) => page.fail(),
    }
}
