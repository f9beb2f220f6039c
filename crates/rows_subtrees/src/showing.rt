//! What a tree holds, a line for each thing.
use mc_text::{Kind, Name, Path};
use rows_page::Page;
use rows_trees::tell_of;
use std::convert::AsStr;
use std::str;
use tree_trait::{Meta, Tree, TreeError};

/// So many things are told.
const TOLD: u32 = 24;

/// What stands below the root: a folder, then what lies in it.
pub fn tell_tree<T: Tree>(page: &mut Page, tree: &mut T) {
    let mut open = Vec::new(page.alloc());
    let root = Path::root(page.alloc());
    open_folder(page, tree, &root, &mut open);
    for _ in 0..TOLD {
        let Some(path) = open.pop() else {
            return;
        };
        tell_thing(page, tree, &path, &mut open);
    }
    if !open.is_empty() {
        page.put("and more\n");
    }
}

/// What lies in a folder is met next. The first name comes last, so that it is met first.
fn open_folder<T: Tree>(page: &mut Page, tree: &mut T, path: &Path, open: &mut Vec<Path>) {
    let Ok(children) = tree.list(page.alloc(), path) else {
        return;
    };
    let mut names = children.names.0;
    names.reverse();
    for name in names {
        open_name(page, path, &name, open);
    }
}

fn open_name(page: &mut Page, folder: &Path, name: &Name, open: &mut Vec<Path>) {
    match folder.join(page.alloc(), name) {
        Ok(path) => page.need(open.push(path).is_ok()),
        Err(_error) => {
            tell_of(page, "in", folder);
            page.put(": a thing whose path would be too long\n");
        }
    }
}

fn tell_thing<T: Tree>(page: &mut Page, tree: &mut T, path: &Path, open: &mut Vec<Path>) {
    match tree.stat(page.alloc(), path) {
        Ok(meta) => tell_meta(page, tree, path, meta, open),
        Err(error) => {
            tell_of(page, "?", path);
            page.tell(format_args!(" {error:?}\n"));
        }
    }
}

fn tell_meta<T: Tree>(
    page: &mut Page,
    tree: &mut T,
    path: &Path,
    meta: Meta,
    open: &mut Vec<Path>,
) {
    match meta.kind {
        Kind::Folder => {
            tell_mode(page, "folder", path, meta.mode);
            page.put("\n");
            open_folder(page, tree, path, open);
        }
        Kind::File => {
            tell_mode(page, "file", path, meta.mode);
            tell_bytes(page, tree, path);
            page.put("\n");
        }
        Kind::Link => tell_link(page, tree, path),
        Kind::Other => {
            tell_of(page, "other", path);
            page.put("\n");
        }
    }
}

fn tell_mode(page: &mut Page, word: &str, path: &Path, mode: u16) {
    tell_of(page, word, path);
    page.tell(format_args!(" {mode:o}"));
}

/// The bytes of a file that has at most sixteen.
fn tell_bytes<T: Tree>(page: &mut Page, tree: &mut T, path: &Path) {
    let mut bytes = [0u8; 16];
    match tree.read_at(page.alloc(), path, 0, &mut bytes) {
        Ok(0) => page.put(" empty"),
        Ok(count) => tell_front(page, bytes.get(..count).unwrap_or(&[])),
        Err(error) => page.tell(format_args!(" {error:?}")),
    }
}

fn tell_front(page: &mut Page, bytes: &[u8]) {
    page.put(" ");
    page.put(str::from_utf8(bytes).unwrap_or("?"));
}

fn tell_kind<T: Tree>(page: &mut Page, tree: &mut T, path: &Path, meta: Meta) {
    match meta.kind {
        Kind::File => {
            page.tell(format_args!("file {:o}", meta.mode));
            tell_bytes(page, tree, path);
        }
        Kind::Folder => page.put("folder"),
        Kind::Link => page.put("link"),
        Kind::Other => page.put("other"),
    }
}

/// What stands at a path, in a few words.
pub fn tell_at<T: Tree>(page: &mut Page, tree: &mut T, path: &Path) {
    match tree.stat(page.alloc(), path) {
        Ok(meta) => tell_kind(page, tree, path, meta),
        Err(TreeError::Missing) => page.put("nothing"),
        Err(error) => page.tell(format_args!("{error:?}")),
    }
}

fn tell_link<T: Tree>(page: &mut Page, tree: &mut T, path: &Path) {
    tell_of(page, "link", path);
    page.put(" -> ");
    match tree.read_link(page.alloc(), path) {
        Ok(text) => page.put(text.as_str()),
        Err(error) => page.tell(format_args!("{error:?}")),
    }
    page.put("\n");
}
