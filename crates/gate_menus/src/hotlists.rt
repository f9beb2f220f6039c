//! Hotlists, by keys.
use hotlist::{Hotlist, parse_hotlist};
use key_screen::{Grid, Key};
use mc_text::{Bytes, Path};
use rows_boxes::{keys_of, tell_screen};
use rows_page::{Page, bytes_of, number, repeated, two_fields};
use std::convert::AsStr;
use ui_hotlist::{Addition, HotlistAct, HotlistBox, HotlistRefusal, add_folder};

/// How many lines and columns the screen has.
const LINES: u16 = 9;

const COLUMNS: u16 = 24;

/// Each row with what comes of it.
pub fn tell_rows(page: &mut Page, rows: &str) {
    for row in rows.lines() {
        page.put(row);
        page.put(" =>");
        tell_row(page, row);
        page.put("\n");
    }
}

/// A row has a call, the hotlist's file, and keys, or the folder that is added.
fn tell_row(page: &mut Page, row: &str) {
    let (call, fields) = two_fields(row, '|');
    let (file, words) = two_fields(fields, '|');
    let bytes = bytes_of(page, file);
    match call {
        "grown" => tell_grown(page, number(file), words),
        _ => tell_parsed(page, call, bytes.as_slice(), words),
    }
}

/// What keys come to in a list with so many entries in a group, before which nothing stands in their lines.
fn tell_grown(page: &mut Page, count: usize, words: &str) {
    let entries = repeated(page.alloc(), "ENTRY \"\" URL \"\"\n", count);
    let mut file = Page::new(page.alloc());
    file.put("GROUP \"g\"\n");
    file.put(entries.text());
    file.put("ENDGROUP\n");
    page.need(entries.is_whole() && file.is_whole());
    tell_parsed(page, "keys", file.text().as_bytes(), words);
}

fn tell_parsed(page: &mut Page, call: &str, file: &[u8], words: &str) {
    match parse_hotlist(page.alloc(), file) {
        Ok(list) => tell_call(page, call, list, words),
        Err(_error) => page.fail(),
    }
}

fn tell_call(page: &mut Page, call: &str, list: Hotlist, words: &str) {
    match call {
        "keys" => tell_keys(page, list, words),
        "list" => tell_list(page, list, words),
        "add" => tell_addition(page, list, words),
        _ => page.fail(),
    }
}

/// What each key comes to.
fn tell_keys(page: &mut Page, list: Hotlist, words: &str) {
    let mut shown = HotlistBox::new(page.alloc(), LINES, list);
    work_keys(page, &mut shown, words);
}

/// What the box shows once the keys were worked.
fn tell_list(page: &mut Page, list: Hotlist, words: &str) {
    let mut shown = HotlistBox::new(page.alloc(), LINES, list);
    let mut aside = Page::new(page.alloc());
    work_keys(&mut aside, &mut shown, words);
    page.need(aside.is_whole());
    match Grid::blank(page.alloc(), LINES, COLUMNS) {
        Ok(mut grid) => tell_painted(page, &shown, &mut grid),
        Err(_error) => page.fail(),
    }
}

fn tell_painted(page: &mut Page, shown: &HotlistBox, grid: &mut Grid) {
    let done = shown.paint(page.alloc(), grid);
    page.need(done.is_ok());
    page.put(" ");
    tell_screen(page, grid);
}

fn work_keys(page: &mut Page, shown: &mut HotlistBox, words: &str) {
    let keys = keys_of(page, words);
    for key in &keys {
        tell_key(page, shown, *key);
    }
}

fn tell_key(page: &mut Page, shown: &mut HotlistBox, key: Key) {
    match shown.key(page.alloc(), key) {
        Ok(act) => tell_act(page, &act),
        Err(_error) => page.fail(),
    }
}

fn tell_act(page: &mut Page, act: &HotlistAct) {
    match act {
        HotlistAct::Stays => page.put(" stays"),
        HotlistAct::Leaves => page.put(" shut"),
        HotlistAct::Goes(path) => tell_place(page, path.as_str()),
        HotlistAct::Saves(bytes) => tell_file(page, bytes),
        HotlistAct::Refused(why) => tell_refusal(page, *why),
    }
}

fn tell_place(page: &mut Page, path: &str) {
    page.put(" goes ");
    page.put(path);
}

/// The lines of a file that is to be saved, a bar behind each.
fn tell_file(page: &mut Page, bytes: &Bytes) {
    page.put(" saves ");
    match std::str::from_utf8(bytes.0.as_slice()) {
        Ok(text) => tell_lines(page, text),
        Err(_error) => page.fail(),
    }
}

fn tell_lines(page: &mut Page, text: &str) {
    for line in text.lines() {
        page.put(line);
        page.put("|");
    }
}

fn tell_refusal(page: &mut Page, why: HotlistRefusal) {
    match why {
        HotlistRefusal::BadName => page.put(" bad name"),
        HotlistRefusal::TooLarge => page.put(" too large"),
    }
}

/// What the addition of a folder comes to.
fn tell_addition(page: &mut Page, list: Hotlist, folder: &str) {
    let bytes = bytes_of(page, folder);
    match std::str::from_utf8(bytes.as_slice()) {
        Ok(text) => add_text(page, list, text),
        Err(_error) => page.fail(),
    }
}

fn add_text(page: &mut Page, list: Hotlist, text: &str) {
    match Path::parse(page.alloc(), text) {
        Ok(folder) => add_path(page, list, &folder),
        Err(_error) => page.fail(),
    }
}

fn add_path(page: &mut Page, list: Hotlist, folder: &Path) {
    match add_folder(page.alloc(), list, folder) {
        Ok(Addition::Saves(bytes)) => tell_file(page, &bytes),
        Ok(Addition::Refused(why)) => tell_refusal(page, why),
        Err(_error) => page.fail(),
    }
}
