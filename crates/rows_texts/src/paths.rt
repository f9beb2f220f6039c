//! Rows of names and paths.
use crate::fields::{put_text, text_of};
use mc_text::{Name, Path};
use rows_page::{Page, number, repeated, two_fields};
use std::convert::AsStr;

/// The name of this text, or why it is none.
pub fn tell_name(page: &mut Page, field: &str) {
    let text = text_of(page, field);
    match Name::new(page.alloc(), text.as_str()) {
        Ok(name) => page.put(name.text()),
        Err(error) => page.tell(format_args!("{error:?}")),
    }
}

/// The bytes of a name of so many letters, or why it is none.
pub fn tell_long_name(page: &mut Page, count: &str) {
    let text = repeated(page.alloc(), "a", number(count));
    match Name::new(page.alloc(), text.text()) {
        Ok(name) => page.tell(format_args!("{} bytes", name.text().len())),
        Err(error) => page.tell(format_args!("{error:?}")),
    }
}

/// The text of the path that this text spells, or why it spells none.
pub fn tell_path(page: &mut Page, field: &str) {
    let text = text_of(page, field);
    match Path::parse(page.alloc(), text.as_str()) {
        Ok(path) => put_text(page, path.text(page.alloc())),
        Err(error) => page.tell(format_args!("{error:?}")),
    }
}

/// The names of a path of so many, of one letter each and with a text behind it, or why it is none.
pub fn tell_long_path(page: &mut Page, fields: &str) {
    let (count, behind) = two_fields(fields, '|');
    let mut text = repeated(page.alloc(), "/a", number(count));
    text.put(behind);
    match Path::parse(page.alloc(), text.text()) {
        Ok(path) => page.tell(format_args!("{} names", path.names().len())),
        Err(error) => page.tell(format_args!("{error:?}")),
    }
}

/// Whether the first path is the second, or above it.
pub fn tell_above(page: &mut Page, fields: &str) {
    let (folder, path) = two_fields(fields, '|');
    match Path::parse(page.alloc(), folder) {
        Ok(folder) => tell_above_of(page, &folder, path),
        Err(_error) => page.fail(),
    }
}

fn tell_above_of(page: &mut Page, folder: &Path, path: &str) {
    match Path::parse(page.alloc(), path) {
        Ok(path) => page.tell(folder.is_prefix_of(&path)),
        Err(_error) => page.fail(),
    }
}

/// The folder of a path, and the name in it.
pub fn tell_parent(page: &mut Page, field: &str) {
    match Path::parse(page.alloc(), field) {
        Ok(path) => tell_parent_of(page, &path),
        Err(_error) => page.fail(),
    }
}

fn tell_parent_of(page: &mut Page, path: &Path) {
    match path.parent(page.alloc()) {
        Ok(Some(folder)) => put_text(page, folder.text(page.alloc())),
        Ok(None) => page.put("no folder"),
        Err(_error) => page.fail(),
    }
    page.put(" and ");
    page.put(path.last().unwrap_or("no name"));
}

/// The path of a name in a folder.
pub fn tell_join(page: &mut Page, fields: &str) {
    let (folder, name) = two_fields(fields, '|');
    match Path::parse(page.alloc(), folder) {
        Ok(folder) => tell_joined(page, &folder, name),
        Err(_error) => page.fail(),
    }
}

fn tell_joined(page: &mut Page, folder: &Path, name: &str) {
    match Name::new(page.alloc(), name) {
        Ok(name) => tell_name_in(page, folder, &name),
        Err(_error) => page.fail(),
    }
}

fn tell_name_in(page: &mut Page, folder: &Path, name: &Name) {
    match folder.join(page.alloc(), name) {
        Ok(path) => put_text(page, path.text(page.alloc())),
        Err(_error) => page.fail(),
    }
}
