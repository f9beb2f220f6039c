//! Rows of hotlists.
use crate::files::{file_of, put_in_one_line, repeated};
use crate::fronts::tell_new;
use hotlist::{HotEditError, HotError, HotItem, Hotlist, parse_hotlist, print_hotlist};
use mc_text::{Bytes, Text};
use rows_page::{Page, number, two_fields};
use std::alloc::Global;
use std::convert::AsStr;

pub fn answer(page: &mut Page, row: &str) {
    let (call, fields) = two_fields(row, '|');
    match call {
        "read" => tell_file(page, fields),
        "fronts" => tell_fronts(page, fields),
        "groups" => tell_groups(page, number(fields)),
        "at" => tell_label_in(page, fields),
        "edit" => tell_edited(page, fields),
        _ => page.fail(),
    }
}

/// What comes of a file: the list as it is printed, with a bar for each newline, or the refusal.
fn tell_file(page: &mut Page, field: &str) {
    match file_of(page.alloc(), field) {
        Ok(file) => tell_list(page, parse_hotlist(page.alloc(), file.0.as_slice())),
        Err(_error) => page.fail(),
    }
}

fn tell_list(page: &mut Page, outcome: Result<Hotlist, HotError>) {
    let mut lines = Page::new(page.alloc());
    tell_outcome(&mut lines, outcome);
    page.need(lines.is_whole());
    put_in_one_line(page, lines.text());
}

/// The printed list, or the refusal.
fn tell_outcome(page: &mut Page, outcome: Result<Hotlist, HotError>) {
    match outcome {
        Ok(list) => tell_printed(page, &list),
        Err(error) => page.tell(format_args!("{error:?}")),
    }
}

fn tell_printed(page: &mut Page, list: &Hotlist) {
    match print_hotlist(page.alloc(), list) {
        Ok(bytes) => tell_bytes(page, &bytes),
        Err(_error) => page.fail(),
    }
}

fn tell_bytes(page: &mut Page, bytes: &Bytes) {
    match String::from_utf8_lossy(page.alloc(), bytes.0.as_slice()) {
        Ok(text) => page.tell(text),
        Err(_error) => page.fail(),
    }
}

/// What comes of each front of a file: `as it stands` where it is printed so, but for the last newline.
fn tell_fronts(page: &mut Page, field: &str) {
    match file_of(page.alloc(), field) {
        Ok(file) => tell_each_front(page, file.0.as_slice()),
        Err(_error) => page.fail(),
    }
}

fn tell_each_front(page: &mut Page, file: &[u8]) {
    let mut last = Page::new(page.alloc());
    for length in 0..file.len().saturating_add(1) {
        let answer = front_told(page.alloc(), file.get(..length).unwrap_or(b""));
        tell_new(page, length, answer, &mut last);
    }
}

fn front_told(alloc: Global, front: &[u8]) -> Page {
    let mut lines = Page::new(alloc);
    tell_outcome(&mut lines, parse_hotlist(alloc, front));
    let mut answer = Page::new(alloc);
    answer.need(lines.is_whole());
    if lines.text().trim_end().as_bytes() == front.trim_ascii_end() {
        answer.put("as it stands");
    } else {
        put_in_one_line(&mut answer, lines.text());
    }
    answer
}

/// What comes of a file of so many groups, none of which ends.
fn tell_groups(page: &mut Page, count: usize) {
    let file = repeated(page.alloc(), "GROUP \"g\"\n", count);
    tell_outcome(page, parse_hotlist(page.alloc(), file.text().as_bytes()));
}

/// A place, and a file: the label there.
fn tell_label_in(page: &mut Page, fields: &str) {
    let (place, file) = two_fields(fields, '|');
    let place = place_of(page, place);
    let Ok(file) = file_of(page.alloc(), file) else {
        return page.fail();
    };
    match parse_hotlist(page.alloc(), file.0.as_slice()) {
        Ok(list) => tell_label(page, list.at(place.as_slice())),
        Err(error) => page.tell(format_args!("{error:?}")),
    }
}

fn tell_label(page: &mut Page, item: Option<&HotItem>) {
    match item {
        Some(HotItem::Entry { label, .. }) => page.put(label.as_str()),
        Some(HotItem::Group { label, .. }) => page.put(label.as_str()),
        None => page.put("none"),
    }
}

/// Positions with a dot between each two; `-` is the place of the list itself.
fn place_of(page: &mut Page, field: &str) -> Vec<usize> {
    let mut place = Vec::new(page.alloc());
    for position in field.trim_matches('-').split_terminator('.') {
        page.need(place.push(number(position)).is_ok());
    }
    place
}

/// Changes with `;` between each two, and the file of the list at the start. Told is what each change
/// answers, and the list at the end.
fn tell_edited(page: &mut Page, fields: &str) {
    let (changes, file) = two_fields(fields, '|');
    let Ok(file) = file_of(page.alloc(), file) else {
        return page.fail();
    };
    match parse_hotlist(page.alloc(), file.0.as_slice()) {
        Ok(list) => edit_list(page, list, changes),
        Err(error) => page.tell(format_args!("{error:?}")),
    }
}

fn edit_list(page: &mut Page, list: Hotlist, changes: &str) {
    let mut list = list;
    for change in changes.split(';') {
        tell_change(page, &mut list, change);
        page.put(", ");
    }
    tell_list(page, Ok(list));
}

/// An addition has a place and a label, a removal a place.
fn tell_change(page: &mut Page, list: &mut Hotlist, change: &str) {
    let (kind, about) = two_fields(change, ' ');
    let (place, label) = two_fields(about, ' ');
    let place = place_of(page, place);
    match item_of(page.alloc(), kind, label) {
        Some(item) => tell_added(page, list.add(place.as_slice(), item)),
        None => tell_label(page, list.remove(place.as_slice()).as_ref()),
    }
}

/// The item that a change adds; a removal adds none.
fn item_of(alloc: Global, kind: &str, label: &str) -> Option<HotItem> {
    let label = Text::from_str(alloc, label).ok()?;
    match kind {
        "entry" => Some(HotItem::entry(label, Text::from_str(alloc, "/").ok()?)),
        "group" => Some(HotItem::group(label, Vec::new(alloc))),
        _ => None,
    }
}

fn tell_added(page: &mut Page, answer: Result<(), HotEditError>) {
    match answer {
        Ok(()) => page.put("added"),
        Err(error) => page.tell(format_args!("{error:?}")),
    }
}
