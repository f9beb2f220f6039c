//! The thing under the cursor is opened to be edited, along links.
ghost use Rattle.std.specs.Prelude.{◌≡◌, ◌<◌, length, None, IfOk};
ghost use Rattle.tree_trait.specs.Answers.{IfKnown};
ghost use Rattle.mc_edit.specs.Edits.{largest_text};
ghost use Rattle.ui_editor.specs.EditorOpenings.{IsFront, OpensOrBegins, OpensPath, OpensThing};
ghost use Rattle.ui_editor.specs.EditorOpenings.{ReadsToOpen, bytes_at, empty_where_missing, unread};

use crate::mode::EditorMode;
use crate::reading::first_bytes;
use mc_edit::{EditError, Editor, LARGEST_TEXT};
use mc_text::{NoMemory, Path};
use resolving::{ResolveError, Wanted, resolve};
use std::alloc::Global;
use tree_trait::{ReadTree, TreeError};

/// What opening a thing comes to.
#[derive(Drop)]
pub enum Opening {
    /// It is edited.
    Edited(EditorMode),
    /// It is a folder, and nothing is opened.
    Folder,
    /// There is no way to it. Never for want of memory, which is an error of its own.
    NoWay(ResolveError),
    /// What lies there can't be read.
    Unread(Path, TreeError),
    /// It has so many bytes, more than a text may have.
    TooLarge(Path, u64),
}

/// Opens the thing of this name in a folder, or the one to which it leads as a link, on a
/// screen of so many lines.
pub fn open_thing<T: ReadTree>(
    alloc: Global,
    tree: &mut T,
    folder: &Path,
    name: &str,
    lines: u16,
) -> Result<Opening, NoMemory>
    ensures opens { IfOk result (OpensThing (T.contents tree.old) folder.now name.now lines) }
    ensures reads { ReadsToOpen result (T.contents tree.old) (T.contents tree.new) (T.fault_count tree.old)
        (T.fault_count tree.new) }
{
    match resolve(alloc, tree, Wanted::AnyThing, folder, name) {
        Ok(path) => open_path(alloc, tree, path, lines),
        Err(ResolveError::Memory) => Err(NoMemory),
        Err(error) => Ok(Opening::NoWay(error)),
    }
}

/// Opens what lies at a path without links, or an empty text where nothing does.
pub fn open_or_begin<T: ReadTree>(
    alloc: Global,
    tree: &mut T,
    path: Path,
    lines: u16,
) -> Result<Opening, NoMemory>
    ensures opens { IfOk result (OpensOrBegins (T.contents tree.old) path lines) }
    ensures reads { ReadsToOpen result (T.contents tree.old) (T.contents tree.new) (T.fault_count tree.old)
        (T.fault_count tree.new) }
{
    let there = open_path(alloc, tree, path, lines)?;
    begin_where_missing(alloc, lines, there)
}

/// An empty text in place of a file that is missing.
fn begin_where_missing(alloc: Global, lines: u16, there: Opening) -> Result<Opening, NoMemory>
    ensures { IfOk result (λ opening. opening ≡ empty_where_missing lines there) }
{
    match there {
        Opening::Edited(mode) => Ok(Opening::Edited(mode)),
        Opening::Folder => Ok(Opening::Folder),
        Opening::NoWay(error) => Ok(Opening::NoWay(error)),
        Opening::Unread(path, error) => begin_unless(alloc, lines, path, error),
        Opening::TooLarge(path, size) => Ok(Opening::TooLarge(path, size)),
    }
}

fn begin_unless(
    alloc: Global,
    lines: u16,
    path: Path,
    error: TreeError,
) -> Result<Opening, NoMemory>
    ensures { IfOk result (λ opening. opening ≡ empty_where_missing lines (Opening.Unread path error)) }
{
    match error {
        TreeError::Missing => Ok(Opening::Edited(EditorMode::begin(alloc, lines, path)?)),
        _ => Ok(Opening::Unread(path, error)),
    }
}

/// Opens what lies at a path without links.
pub fn open_path<T: ReadTree>(
    alloc: Global,
    tree: &mut T,
    path: Path,
    lines: u16,
) -> Result<Opening, NoMemory>
    ensures opens { IfOk result (OpensPath (T.contents tree.old) path lines) }
    ensures reads { ReadsToOpen result (T.contents tree.old) (T.contents tree.new) (T.fault_count tree.old)
        (T.fault_count tree.new) }
{
    match first_bytes(alloc, tree, &path, LARGEST_TEXT + 1) {
        Ok(bytes) => open_bytes(alloc, tree, path, lines, bytes),
        Err(TreeError::Memory) => Err(NoMemory),
        Err(TreeError::IsFolder) => Ok(Opening::Folder),
        Err(error) => Ok(Opening::Unread(path, error)),
    }
}

/// Opens a file of which these are the first bytes: all, or one more than a text may have.
fn open_bytes<T: ReadTree>(
    alloc: Global,
    tree: &mut T,
    path: Path,
    lines: u16,
    bytes: Vec<u8>,
) -> Result<Opening, NoMemory>
    requires { IsFront (T.contents tree.old) path 16777217 bytes.items }
    ensures opens { IfOk result (OpensPath (T.contents tree.old) path lines) }
    ensures reads { ReadsToOpen result (T.contents tree.old) (T.contents tree.new) (T.fault_count tree.old)
        (T.fault_count tree.new) }
{
    match Editor::start(alloc, bytes.as_slice()) {
        Ok(editor) => Ok(Opening::Edited(EditorMode::of(alloc, lines, path, editor)?)),
        Err(EditError::TooLarge(_)) => too_large(alloc, tree, path, lines),
        Err(_) => Err(NoMemory),
    }
}

/// A file has more bytes than a text may have.
fn too_large<T: ReadTree>(
    alloc: Global,
    tree: &mut T,
    path: Path,
    lines: u16,
) -> Result<Opening, NoMemory>
    requires { IfKnown (T.contents tree.old) (λ log. (unread log path ≡ None)
        × (largest_text < length (bytes_at log path))) }
    ensures opens { IfOk result (OpensPath (T.contents tree.old) path lines) }
    ensures reads { ReadsToOpen result (T.contents tree.old) (T.contents tree.new) (T.fault_count tree.old)
        (T.fault_count tree.new) }
{
    match tree.stat(alloc, &path) {
        Ok(meta) => Ok(Opening::TooLarge(path, meta.size.max(LARGEST_TEXT as u64 + 1))),
        Err(TreeError::Memory) => Err(NoMemory),
        Err(error) => Ok(Opening::Unread(path, error)),
    }
}
