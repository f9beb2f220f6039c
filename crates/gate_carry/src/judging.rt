//! What stands at source and target: the thing as it was at first, or nothing, or something else.
use crate::scene::{SOURCE, TARGET, bytes_of};
use mc_text::{Kind, Path, Text};
use rows_page::{Page, number, two_fields};
use rows_trees::mode_of;
use std::convert::AsStr;
use tree_trait::{Meta, Tree, TreeError};

/// The thing that is carried, as it was at first.
#[derive(Drop)]
pub struct Thing {
    kind: Kind,
    mode: u16,
    bytes: Vec<u8>,
    text: Page,
}

impl Thing {
    /// As a field spells it.
    pub fn new(page: &mut Page, field: &str) -> Thing {
        let (kind, facts) = two_fields(field, ' ');
        let (mode, size) = two_fields(facts, ' ');
        let mut text = Page::new(page.alloc());
        text.put(facts);
        Thing {
            kind: kind_of(kind),
            mode: mode_of(mode),
            bytes: bytes_of(page, number(size)),
            text,
        }
    }
}

fn kind_of(word: &str) -> Kind {
    match word {
        "file" => Kind::File,
        "link" => Kind::Link,
        _ => Kind::Other,
    }
}

/// What stands at a path.
#[derive(Clone, Copy, Debug, PartialEq, Eq)]
pub enum Standing {
    /// The thing, whole.
    Whole,
    Nothing,
    Else,
}

/// What stands at both paths in the end.
pub fn tell_left<T: Tree>(page: &mut Page, tree: &mut T, thing: &Thing) {
    let source = what_stands(page, tree, SOURCE, thing);
    let target = what_stands(page, tree, TARGET, thing);
    let names = names_beside(page, tree);
    page.tell(format_args!(
        "  left: source {source:?}, target {target:?}, names beside the target {names}\n"
    ));
}

fn names_beside<T: Tree>(page: &mut Page, tree: &mut T) -> usize {
    let Ok(folder) = Path::parse(page.alloc(), "/m2") else {
        return 0;
    };
    match tree.list(page.alloc(), &folder) {
        Ok(children) => children.names.as_slice().len(),
        Err(_error) => 0,
    }
}

/// What stands at a path.
pub fn what_stands<T: Tree>(page: &mut Page, tree: &mut T, path: &str, thing: &Thing) -> Standing {
    let Ok(path) = Path::parse(page.alloc(), path) else {
        return Standing::Else;
    };
    match tree.stat(page.alloc(), &path) {
        Err(TreeError::Missing) => Standing::Nothing,
        Err(_error) => Standing::Else,
        Ok(meta) => compared(page, tree, &path, meta, thing),
    }
}

fn compared<T: Tree>(
    page: &mut Page,
    tree: &mut T,
    path: &Path,
    meta: Meta,
    thing: &Thing,
) -> Standing {
    if meta.kind != thing.kind {
        return Standing::Else;
    }
    match meta.kind {
        Kind::File => compare_file(page, tree, path, meta, thing),
        Kind::Link => compare_link(page, tree, path, thing),
        Kind::Folder | Kind::Other => Standing::Whole,
    }
}

fn compare_file<T: Tree>(
    page: &mut Page,
    tree: &mut T,
    path: &Path,
    meta: Meta,
    thing: &Thing,
) -> Standing {
    let bytes = thing.bytes.as_slice();
    if meta.size != bytes.len() as u64 || meta.mode != thing.mode {
        return Standing::Else;
    }
    match Vec::from_slice(page.alloc(), bytes) {
        Ok(room) => read_over(page, tree, path, room, bytes),
        Err(_error) => Standing::Else,
    }
}

/// Whether a file holds these bytes. The room that it is read into is as long.
fn read_over<T: Tree>(
    page: &mut Page,
    tree: &mut T,
    path: &Path,
    room: Vec<u8>,
    bytes: &[u8],
) -> Standing {
    let mut room = room;
    room.as_mut_slice().fill(0);
    match tree.read_at(page.alloc(), path, 0, room.as_mut_slice()) {
        Ok(count) if room.get(..count) == Some(bytes) => Standing::Whole,
        _ => Standing::Else,
    }
}

fn compare_link<T: Tree>(page: &mut Page, tree: &mut T, path: &Path, thing: &Thing) -> Standing {
    match tree.read_link(page.alloc(), path) {
        Ok(text) => same_text(&text, thing),
        Err(_error) => Standing::Else,
    }
}

fn same_text(text: &Text, thing: &Thing) -> Standing {
    if text.as_str() == thing.text.text() {
        return Standing::Whole;
    }
    Standing::Else
}
