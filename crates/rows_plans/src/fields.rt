//! The fields of a row, which stand between bars.
use mc_text::{Path, Paths};
use rows_page::Page;
use std::alloc::Global;

/// The paths of a field, with a blank between two.
pub fn paths_of(alloc: Global, field: &str) -> Option<Paths> {
    let mut paths = Paths::new(alloc);
    for word in field.split_whitespace() {
        if !add_path(alloc, &mut paths, word) {
            return None;
        }
    }
    Some(paths)
}

fn add_path(alloc: Global, paths: &mut Paths, word: &str) -> bool {
    match Path::parse(alloc, word) {
        Ok(path) => paths.push(path).is_ok(),
        Err(_error) => false,
    }
}

/// A part over and over.
pub fn repeated(alloc: Global, part: &str, count: usize) -> Page {
    let mut text = Page::new(alloc);
    for _ in 0..count {
        text.put(part);
    }
    text
}
