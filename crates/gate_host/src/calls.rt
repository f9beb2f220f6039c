//! Calls of the tree by their names, and their answers in words.
use crate::changes::change;
use mc_text::{Path, Text};
use rows_page::Page;
use std::convert::AsStr;
use tree_trait::{Children, Meta, Tree, TreeError};

/// What a call answers: words, or the name of the error.
pub fn tell_answer<T: Tree>(page: &mut Page, tree: &mut T, call: &str, path: &Path, word: &str) {
    match call {
        "stat" => tell_facts(page, tree.stat(page.alloc(), path)),
        "time" => tell_time(page, tree.stat(page.alloc(), path)),
        "list" => tell_children(page, tree.list(page.alloc(), path)),
        "read" => tell_bytes(page, tree, path),
        "link" => tell_link(page, tree.read_link(page.alloc(), path)),
        _ => tell_done(page, change(page.alloc(), tree, call, path, word)),
    }
}

/// An answer that tells no more than that it was done.
pub fn tell_done(page: &mut Page, answer: Result<(), TreeError>) {
    match answer {
        Ok(()) => page.put("done"),
        Err(error) => tell_error(page, error),
    }
}

fn tell_error(page: &mut Page, error: TreeError) {
    page.tell(format_args!("{error:?}"));
}

/// The kind, the size and the mode.
fn tell_facts(page: &mut Page, answer: Result<Meta, TreeError>) {
    match answer {
        Ok(meta) => {
            let (kind, size, mode) = (meta.kind, meta.size, meta.mode);
            page.tell(format_args!("{kind:?} {size} {mode:o}"));
        }
        Err(error) => tell_error(page, error),
    }
}

/// When it was changed last.
fn tell_time(page: &mut Page, answer: Result<Meta, TreeError>) {
    match answer {
        Ok(meta) => page.tell(meta.mtime),
        Err(error) => tell_error(page, error),
    }
}

/// The names in a folder, and how many there are that are no names.
fn tell_children(page: &mut Page, answer: Result<Children, TreeError>) {
    match answer {
        Ok(children) => {
            for name in children.names.as_slice() {
                page.put(name.text());
                page.put(" ");
            }
            page.tell(format_args!("and {} more", children.unnamed));
        }
        Err(error) => tell_error(page, error),
    }
}

/// The first bytes of a file, between brackets.
fn tell_bytes<T: Tree>(page: &mut Page, tree: &mut T, path: &Path) {
    let mut into = [0u8; 16];
    match tree.read_at(page.alloc(), path, 0, &mut into) {
        Ok(count) => {
            let text = std::str::from_utf8(&into[..count]).unwrap_or("no text");
            page.tell(format_args!("[{text}]"));
        }
        Err(error) => tell_error(page, error),
    }
}

fn tell_link(page: &mut Page, answer: Result<Text, TreeError>) {
    match answer {
        Ok(text) => page.put(text.as_str()),
        Err(error) => tell_error(page, error),
    }
}
