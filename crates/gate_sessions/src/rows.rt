//! A row: the run that it spells.
use crate::running;
use mc_main::Env;
use mc_text::{Bytes, Text};
use rows_page::{Page, two_fields};

/// A run: its tree; its devices, which are `telling` what they hold, as those whose screen is `shown` too,
/// or silent, and which of their calls fail; the folder in which it is started; its words, where `''` is an
/// empty one; and its keys.
#[derive(Clone, Copy)]
pub struct Row<'a> {
    pub tree: &'a str,
    pub device: &'a str,
    pub fails: &'a str,
    folder: &'a str,
    words: &'a str,
    keys: &'a str,
}

/// What comes of a row.
pub fn tell_run(page: &mut Page, row: &str) {
    running::tell_run(page, &read_row(row));
}

/// The fields of a row, with marks between them.
pub fn read_row(row: &str) -> Row<'_> {
    let (tree, rest) = two_fields(row, '|');
    let (devices, rest) = two_fields(rest, '|');
    let (folder, rest) = two_fields(rest, '|');
    let (words, keys) = two_fields(rest, '|');
    let (device, fails) = two_fields(devices.trim(), ' ');
    Row {
        tree: tree.trim(),
        device,
        fails,
        folder: folder.trim(),
        words,
        keys,
    }
}

/// The numbers of the calls that fail, where this device is the one that fails.
pub fn failing(page: &mut Page, row: &Row<'_>, device: &str) -> Vec<u64> {
    let mut list = Vec::new(page.alloc());
    if row.device == device {
        for number in row.fails.split(' ') {
            push_number(page, &mut list, number);
        }
    }
    list
}

fn push_number(page: &mut Page, list: &mut Vec<u64>, number: &str) {
    if let Ok(number) = number.parse::<u64>() {
        page.need(list.push(number).is_ok());
    }
}

/// The words of a run.
pub fn words_of(page: &mut Page, row: &Row<'_>) -> Vec<Text> {
    let mut list = Vec::new(page.alloc());
    for word in row.words.split_whitespace() {
        push_word(page, &mut list, word);
    }
    list
}

fn push_word(page: &mut Page, list: &mut Vec<Text>, word: &str) {
    let word = text_of(page, if word == "''" { "" } else { word });
    page.need(list.push(word).is_ok());
}

pub fn text_of(page: &mut Page, text: &str) -> Text {
    match Text::from_str(page.alloc(), text) {
        Ok(text) => text,
        Err(_error) => {
            page.fail();
            Text(String::new(page.alloc()))
        }
    }
}

/// The surroundings of a run. Behind its folder may stand `home` and the text of HOME. A screen that is
/// shown has 10 lines of 40 columns.
pub fn env_of(page: &mut Page, row: &Row<'_>) -> Env {
    let (folder, home) = two_fields(row.folder, ' ');
    let is_shown = row.device == "shown";
    Env {
        folder: text_of(page, folder),
        lines: text_where(page, is_shown, "10"),
        columns: text_where(page, is_shown, "40"),
        home: home_of(page, home),
        workers: None,
    }
}

fn text_where(page: &mut Page, holds: bool, text: &str) -> Option<Text> {
    if holds {
        Some(text_of(page, text))
    } else {
        None
    }
}

fn home_of(page: &mut Page, said: &str) -> Option<Text> {
    match said.strip_prefix("home ") {
        Some(home) => Some(text_of(page, home)),
        None => None,
    }
}

/// The bytes that a terminal sends for the keys of a run.
pub fn keys_of(page: &mut Page, row: &Row<'_>) -> Bytes {
    let mut bytes = Vec::new(page.alloc());
    for key in row.keys.split(' ') {
        page.need(
            bytes
                .extend_from_slice(bytes_of_key(key).as_bytes())
                .is_ok(),
        );
    }
    Bytes(bytes)
}

/// What a terminal sends for a key: a letter sends itself.
fn bytes_of_key(key: &str) -> &str {
    match key {
        "down" => "\x1b[B",
        "up" => "\x1b[A",
        "right" => "\x1b[C",
        "end" => "\x1b[F",
        "pgdn" => "\x1b[6~",
        "enter" => "\r",
        "tab" => "\t",
        "insert" => "\x1b[2~",
        "c-c" => "\x03",
        "c-l" => "\x0c",
        "c-u" => "\x15",
        "c-x" => "\x18",
        "escape" => "\x1b",
        "m-?" => "\x1b?",
        "f2" => "\x1bOQ",
        "f3" => "\x1bOR",
        "f4" => "\x1bOS",
        "f5" => "\x1b[15~",
        "f6" => "\x1b[17~",
        "f7" => "\x1b[18~",
        "f8" => "\x1b[19~",
        "f9" => "\x1b[20~",
        "f10" => "\x1b[21~",
        letter => letter,
    }
}
