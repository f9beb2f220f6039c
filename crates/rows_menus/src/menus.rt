//! What a menu's file holds.
ghost use Rattle.std.specs.Prelude.{◌<◌, length};

use rows_page::{Page, bytes_of, number, two_fields};
use std::convert::AsStr;
use user_menu::{Menu, parse_menu};

/// Whether patterns are shell patterns, or else regular expressions, at a menu's begin.
pub fn are_shell_patterns(word: &str) -> bool {
    word == "shell"
}

/// All entries of a menu, or why the file holds none.
pub fn tell_menu(page: &mut Page, field: &str) {
    let (kind, file) = two_fields(field, '|');
    let bytes = bytes_of(page, file);
    match parse_menu(page.alloc(), &bytes, are_shell_patterns(kind)) {
        Ok(menu) => tell_entries(page, &menu),
        Err(error) => page.tell(error),
    }
}

/// The number of entries of a menu whose file repeats a text, and the last one.
pub fn tell_repeated(page: &mut Page, field: &str) {
    let (count, part) = two_fields(field, '|');
    let part = bytes_of(page, part);
    let mut bytes = Vec::new(page.alloc());
    for _ in 0..number(count) {
        page.need(bytes.extend_from_slice(&part).is_ok());
    }
    page.tell(format_args!("{} bytes, ", bytes.len()));
    tell_last(page, &bytes, true);
}

/// For each prefix of a file a line: its length, and the number of its entries and the last one,
/// or why it holds no menu.
pub fn tell_cuts(page: &mut Page, field: &str) {
    let (kind, file) = two_fields(field, '|');
    let bytes = bytes_of(page, file);
    page.tell(format_args!("{} bytes", bytes.len()));
    for length in 0..bytes.len().saturating_add(1) {
        page.tell(format_args!("\n{length}: "));
        let prefix = bytes.get(..length).unwrap_or(b"");
        tell_last(page, prefix, are_shell_patterns(kind));
    }
}

/// The number of a file's entries, and the last one; or why the file holds no menu.
fn tell_last(page: &mut Page, bytes: &[u8], shell_patterns: bool) {
    match parse_menu(page.alloc(), bytes, shell_patterns) {
        Ok(menu) => tell_last_entry(page, &menu),
        Err(error) => page.tell(error),
    }
}

fn tell_last_entry(page: &mut Page, menu: &Menu) {
    let count = menu.len();
    page.tell(format_args!("entries {count}"));
    if count > 0 {
        tell_entry(page, menu, count - 1);
    }
}

fn tell_entries(page: &mut Page, menu: &Menu) {
    page.tell(format_args!("entries {}", menu.len()));
    for entry in 0..menu.len() {
        tell_entry(page, menu, entry);
    }
}

/// A title, and in brackets the command lines, with a slash between two. A carriage return
/// in the title is spelled.
fn tell_entry(page: &mut Page, menu: &Menu, entry: usize)
    requires { entry < length menu.now }
{
    page.put("; ");
    tell_replaced(page, menu.title(entry), "\r", "\\x0d");
    page.put(" (");
    tell_replaced(page, menu.commands(entry), "\n", " / ");
    page.put(")");
}

/// A text, in which something is written otherwise.
fn tell_replaced(page: &mut Page, text: &str, from: &str, to: &str) {
    match text.replace(page.alloc(), from, to) {
        Ok(told) => page.put(told.as_str()),
        Err(_error) => page.fail(),
    }
}
