//! A viewer that makes steps and searches, and its page.
ghost use Rattle.std.specs.Prelude.{◌≤◌};

use crate::files::{remove, write};
use crate::searches::search_of;
use crate::steps::step_of;
use mc_text::Rows;
use mc_viewer::{Subject, ViewError, Viewer};
use rows_page::Page;
use std::convert::AsStr;
use tree_trait::Tree;

/// The page behind the steps, or why there is none.
pub fn tell_view<T: Tree>(
    page: &mut Page,
    tree: &mut T,
    subject: Subject,
    columns: u16,
    words: &str,
) {
    match Viewer::start(page.alloc(), tree, subject, 10, columns.clamp(40, 400)) {
        Ok(mut viewer) => tell_steps(page, tree, &mut viewer, words),
        Err(error) => page.tell(format_args!("{error:?}")),
    }
}

/// Makes each step, and shows the page. A step that is refused is told, and the next one made.
fn tell_steps<T: Tree>(page: &mut Page, tree: &mut T, viewer: &mut Viewer, words: &str) {
    for word in words.split(' ') {
        match word {
            "" => (),
            "remove" => remove(page, tree),
            _ => tell_word(page, tree, viewer, word),
        }
    }
    match viewer.page(page.alloc(), tree) {
        Ok(rows) => tell_page(page, &rows),
        Err(error) => page.tell(format_args!("{error:?}")),
    }
}

/// Writes the file anew, or searches, or makes a step.
fn tell_word<T: Tree>(page: &mut Page, tree: &mut T, viewer: &mut Viewer, word: &str) {
    if let Some(bytes) = word.strip_prefix("write:") {
        return write(page, tree, bytes);
    }
    if word == "next" {
        return tell_refusal(page, viewer.next(page.alloc(), tree));
    }
    if let Some(what) = search_of(page, word) {
        return tell_refusal(page, viewer.search(page.alloc(), tree, what));
    }
    match step_of(word) {
        Some(step) => tell_refusal(page, viewer.go(page.alloc(), tree, step)),
        None => page.fail(),
    }
}

fn tell_refusal(page: &mut Page, answer: Result<(), ViewError>) {
    if let Err(error) = answer {
        page.tell(format_args!("{error:?} "));
    }
}

/// Each row between brackets.
fn tell_page(page: &mut Page, rows: &Rows) {
    for row in rows.as_slice() {
        page.put("[");
        page.put(row.as_str());
        page.put("]");
    }
}
