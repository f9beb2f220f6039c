//! The files that are viewed, and the bytes that a field spells.
ghost use Rattle.std.specs.Prelude.{◌≤◌};

use mc_text::Path;
use rows_page::{Page, bytes_of, number, two_fields};
use rows_trees::{plant_file, plant_folder};
use tree_trait::Tree;

/// Plants the folder `/folder`, the file `/shut` that may not be read, and the empty file `/file`.
pub fn plant_files<T: Tree>(page: &mut Page, tree: &mut T) {
    plant_folder(page, tree, "/folder", 0o755);
    plant_file(page, tree, "/shut", 0o200);
    plant_file(page, tree, "/file", 0o644);
}

/// Writes `/file` anew.
pub fn write<T: Tree>(page: &mut Page, tree: &mut T, field: &str) {
    remove(page, tree);
    plant_file(page, tree, "/file", 0o644);
    let bytes = bytes_spelled(page, field);
    write_bytes(page, tree, bytes.as_slice());
}

fn write_bytes<T: Tree>(page: &mut Page, tree: &mut T, bytes: &[u8]) {
    match Path::parse(page.alloc(), "/file") {
        Ok(path) => page.need(tree.write_at(page.alloc(), &path, 0, bytes).is_ok()),
        Err(_error) => page.fail(),
    }
}

/// Removes `/file`, where it is there.
pub fn remove<T: Tree>(page: &mut Page, tree: &mut T) {
    match Path::parse(page.alloc(), "/file") {
        Ok(path) => {
            let _gone = tree.remove_file(page.alloc(), &path);
        }
        Err(_error) => page.fail(),
    }
}

/// The bytes of a field. Between signs `+` stand its parts, and behind a number and a `*` one
/// that is repeated so often.
pub fn bytes_spelled(page: &mut Page, field: &str) -> Vec<u8> {
    let mut bytes = Vec::new(page.alloc());
    for part in field.split('+') {
        push_part(page, &mut bytes, part);
    }
    bytes
}

fn push_part(page: &mut Page, bytes: &mut Vec<u8>, part: &str) {
    let (count, repeated) = two_fields(part, '*');
    if repeated.is_empty() {
        push_times(page, bytes, 1, part);
    } else {
        push_times(page, bytes, number(count), repeated);
    }
}

fn push_times(page: &mut Page, bytes: &mut Vec<u8>, count: usize, part: &str) {
    let part = bytes_of(page, part);
    for _ in 0..count {
        page.need(bytes.extend_from_slice(part.as_slice()).is_ok());
    }
}
