//! The thing under the cursor is opened, along links.
ghost use Rattle.std.specs.Prelude.{◌≡◌, IfOk};
ghost use Rattle.ui_viewer.specs.Openings.{LeadsTo, OpensPath, OpensThing, ReadsToOpen};

use crate::mode::ViewerMode;
use mc_text::{NoMemory, Path};
use mc_viewer::ViewError;
use resolving::{ResolveError, Wanted, resolve};
use std::alloc::Global;
use tree_trait::{ReadTree, TreeError};

/// What opening a thing comes to.
#[derive(Debug, Drop)]
pub enum Opening {
    /// It is viewed.
    Viewed(ViewerMode),
    /// There is no way to it. Never for want of memory, which is an error of its own.
    NoWay(ResolveError),
    /// What lies there can't be read.
    Unread(Path, TreeError),
}

/// Opens the thing of this name in a folder, or the one to which it leads as a link, on a screen of
/// so many lines and columns.
pub fn open_thing<T: ReadTree>(
    alloc: Global,
    tree: &mut T,
    folder: &Path,
    name: &str,
    lines: u16,
    columns: u16,
) -> Result<Opening, NoMemory>
    ensures opens { IfOk result (OpensThing (T.contents tree.old) folder.now name.now lines columns) }
    ensures reads { ReadsToOpen result (T.contents tree.old) (T.contents tree.new) (T.fault_count tree.old)
        (T.fault_count tree.new) }
{
    match resolve(alloc, tree, Wanted::AnyThing, folder, name) {
        Ok(path) => open_path(alloc, tree, path, lines, columns),
        Err(ResolveError::Memory) => Err(NoMemory),
        Err(error) => Ok(Opening::NoWay(error)),
    }
}

/// Opens what lies at a path without links.
fn open_path<T: ReadTree>(
    alloc: Global,
    tree: &mut T,
    path: Path,
    lines: u16,
    columns: u16,
) -> Result<Opening, NoMemory>
    ensures opens { IfOk result (OpensPath (T.contents tree.old) path lines columns) }
    ensures reads { ReadsToOpen result (T.contents tree.old) (T.contents tree.new) (T.fault_count tree.old)
        (T.fault_count tree.new) }
{
    match ViewerMode::open(alloc, tree, &path, lines, columns) {
        Ok(mode) => Ok(Opening::Viewed(mode)),
        Err(ViewError::Tree(error)) => Ok(Opening::Unread(path, error)),
        Err(_) => Err(NoMemory),
    }
}
