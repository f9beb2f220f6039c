//! Whether a tree is safe: the target is missing or whole, the source is as it was, and nothing else stands
//! in the target's folder but parts of the job.
use crate::scene::{FOLDER, Original, SOURCE, TARGET};
use mc_text::{Kind, Name, Path};
use rows_page::Page;
use tree_trait::{Children, Meta, Tree, TreeError};

/// What stands at a path.
#[derive(Clone, Copy, Debug)]
pub enum Standing {
    /// A file with the bytes and the mode of the original.
    Whole,
    Missing,
    /// Anything else.
    Torn,
}

/// What a tree comes to: safe, with the target or without it, or not safe, and why.
#[derive(Clone, Copy, Debug)]
pub enum Verdict {
    Whole,
    Missing,
    Unsafe(&'static str),
}

/// Looks at the folder, the source and the target.
pub fn judge<T: Tree>(page: &mut Page, tree: &mut T, original: &Original) -> Verdict {
    let source = what_stands(page, tree, SOURCE, original);
    let target = what_stands(page, tree, TARGET, original);
    if has_stranger(page, tree) {
        return Verdict::Unsafe("something else stands in the folder");
    }
    safe_or_not(source, target)
}

fn safe_or_not(source: Standing, target: Standing) -> Verdict {
    match (source, target) {
        (Standing::Whole, Standing::Whole) => Verdict::Whole,
        (Standing::Whole, Standing::Missing) => Verdict::Missing,
        (Standing::Whole, Standing::Torn) => Verdict::Unsafe("the target is torn"),
        _ => Verdict::Unsafe("the source is not as it was"),
    }
}

/// What stands at a path.
pub fn what_stands<T: Tree>(
    page: &mut Page,
    tree: &mut T,
    path: &str,
    original: &Original,
) -> Standing {
    let Ok(path) = Path::parse(page.alloc(), path) else {
        return Standing::Torn;
    };
    match tree.stat(page.alloc(), &path) {
        Err(TreeError::Missing) => Standing::Missing,
        Err(_error) => Standing::Torn,
        Ok(meta) => compared(page, tree, &path, meta, original),
    }
}

fn compared<T: Tree>(
    page: &mut Page,
    tree: &mut T,
    path: &Path,
    meta: Meta,
    original: &Original,
) -> Standing {
    let bytes = original.bytes.as_slice();
    if meta.kind != Kind::File || meta.size != bytes.len() as u64 || meta.mode != original.mode {
        return Standing::Torn;
    }
    match Vec::from_slice(page.alloc(), bytes) {
        Ok(room) => read_over(page, tree, path, room, bytes),
        Err(_error) => Standing::Torn,
    }
}

/// Whether a file holds these bytes. The room that it is read into is as long.
fn read_over<T: Tree>(
    page: &mut Page,
    tree: &mut T,
    path: &Path,
    room: Vec<u8>,
    bytes: &[u8],
) -> Standing {
    let mut room = room;
    room.as_mut_slice().fill(0);
    match tree.read_at(page.alloc(), path, 0, room.as_mut_slice()) {
        Ok(count) if room.get(..count) == Some(bytes) => Standing::Whole,
        _ => Standing::Torn,
    }
}

/// Whether the folder holds more than the target and parts of job 1.
fn has_stranger<T: Tree>(page: &mut Page, tree: &mut T) -> bool {
    match children_of_folder(page, tree) {
        Some(children) => holds_stranger(&children),
        None => true,
    }
}

fn holds_stranger(children: &Children) -> bool {
    children.unnamed != 0 || children.names.as_slice().iter().any(is_stranger)
}

fn is_stranger(name: &Name) -> bool {
    let text = name.text();
    text != "e" && !(text.starts_with(".mc.1.") && text.ends_with(".part"))
}

/// What the target's folder holds, if it can be seen.
pub fn children_of_folder<T: Tree>(page: &mut Page, tree: &mut T) -> Option<Children> {
    let folder = Path::parse(page.alloc(), FOLDER).ok()?;
    tree.list(page.alloc(), &folder).ok()
}
