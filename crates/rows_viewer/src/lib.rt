//! Shows files and outputs, searches them, and writes the page that comes of each row.
#![tactic(auto)]

mod files;
mod keyed;
mod searches;
mod steps;
mod views;

use crate::files::bytes_spelled;
use mc_text::{Bytes, Path};
use mc_viewer::Subject;
use mem_tree::MemTree;
use rows_page::{Page, two_fields};
use tree_trait::Tree;

/// What the words of a row are.
#[derive(Clone, Copy)]
enum Words {
    Steps,
    Keys,
}

/// Each row with what comes of it: what is viewed, the columns, the bytes, the steps.
pub fn tell_rows(page: &mut Page, rows: &str) {
    tell_by(page, rows, Words::Steps);
}

/// Each row with what comes of it: the file that is viewed, the columns, its bytes, the keys.
pub fn tell_key_rows(page: &mut Page, rows: &str) {
    tell_by(page, rows, Words::Keys);
}

fn tell_by(page: &mut Page, rows: &str, by: Words) {
    match MemTree::new(page.alloc(), 0) {
        Ok(mut tree) => tell_in(page, &mut tree, rows, by),
        Err(_error) => page.fail(),
    }
}

fn tell_in<T: Tree>(page: &mut Page, tree: &mut T, rows: &str, by: Words) {
    files::plant_files(page, tree);
    for row in rows.lines() {
        page.put(row);
        page.put(" => ");
        tell_row(page, tree, row, by);
        page.put("\n");
    }
}

fn tell_row<T: Tree>(page: &mut Page, tree: &mut T, row: &str, by: Words) {
    let (name, fields) = two_fields(row, '|');
    let (columns, fields) = two_fields(fields, '|');
    let (bytes, words) = two_fields(fields, '|');
    let columns = columns.parse().unwrap_or(0);
    match by {
        Words::Steps => tell_steps(page, tree, name, bytes, columns, words),
        Words::Keys => tell_keys(page, tree, name, bytes, columns, words),
    }
}

fn tell_steps<T: Tree>(
    page: &mut Page,
    tree: &mut T,
    name: &str,
    bytes: &str,
    columns: u16,
    words: &str,
) {
    match subject_of(page, tree, name, bytes) {
        Some(subject) => views::tell_view(page, tree, subject, columns, words),
        None => page.fail(),
    }
}

fn tell_keys<T: Tree>(
    page: &mut Page,
    tree: &mut T,
    name: &str,
    bytes: &str,
    columns: u16,
    words: &str,
) {
    match file_of(page, tree, name, bytes) {
        Some(path) => keyed::tell_keyed(page, tree, &path, columns, words),
        None => page.fail(),
    }
}

/// What is viewed: an output, or a file.
fn subject_of<T: Tree>(page: &mut Page, tree: &mut T, name: &str, bytes: &str) -> Option<Subject> {
    if name == "output" {
        return Some(Subject::Output(Bytes(bytes_spelled(page, bytes))));
    }
    Some(Subject::File(file_of(page, tree, name, bytes)?))
}

/// A file, whose bytes are written first where there are any.
fn file_of<T: Tree>(page: &mut Page, tree: &mut T, name: &str, bytes: &str) -> Option<Path> {
    if !bytes.is_empty() {
        files::write(page, tree, bytes);
    }
    Path::parse(page.alloc(), name).ok()
}
