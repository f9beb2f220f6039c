//! Calls that more than one machine makes, each alone: its refusal is named with its path.
ghost use Rattle.std.specs.Prelude.{◌≤◌, ◌∷◌, [], true, false};
ghost use Rattle.tree_trait.specs.Calls.{SetMode, Rename, RemoveFile, SyncFolder};
ghost use Rattle.job_reports.specs.Stops.{Ran};

use crate::stop::{Stop, made_or_stopped, out_of_memory, stopped_before};
use mc_text::Path;
use std::alloc::Global;
use tree_trait::Tree;

/// Gives a thing a mode.
pub fn set_mode<T: Tree>(alloc: Global, tree: &mut T, path: &Path, mode: u16) -> Result<u64, Stop>
    requires { mode ≤ 0o7777 }
    ensures { Ran (SetMode path.now mode ∷ []) false result (T.contents tree.old) (T.contents tree.new)
        (T.fault_count tree.old) (T.fault_count tree.new) }
{
    // The path of the report comes first, here and below: after the call it is too late to find no memory.
    let Ok(named) = path.copy(alloc) else {
        return Err(stopped_before(out_of_memory(false)));
    };
    made_or_stopped(tree.set_mode(alloc, path, mode), named, false)
}

/// Renames a thing.
pub fn rename_thing<T: Tree>(
    alloc: Global,
    tree: &mut T,
    source: &Path,
    target: &Path,
) -> Result<u64, Stop>
    ensures { Ran (Rename source.now target.now ∷ []) false result (T.contents tree.old) (T.contents tree.new)
        (T.fault_count tree.old) (T.fault_count tree.new) }
{
    let Ok(named) = target.copy(alloc) else {
        return Err(stopped_before(out_of_memory(false)));
    };
    made_or_stopped(tree.rename(alloc, source, target), named, false)
}

/// Removes a part, which is not skipped.
pub fn remove_part<T: Tree>(alloc: Global, tree: &mut T, part: &Path) -> Result<u64, Stop>
    ensures { Ran (RemoveFile part.now ∷ []) true result (T.contents tree.old) (T.contents tree.new)
        (T.fault_count tree.old) (T.fault_count tree.new) }
{
    let Ok(named) = part.copy(alloc) else {
        return Err(stopped_before(out_of_memory(true)));
    };
    made_or_stopped(tree.remove_file(alloc, part), named, true)
}

/// Syncs the names of a folder, which is not skipped.
pub fn sync_names<T: Tree>(alloc: Global, tree: &mut T, folder: &Path) -> Result<u64, Stop>
    ensures { Ran (SyncFolder folder.now ∷ []) true result (T.contents tree.old) (T.contents tree.new)
        (T.fault_count tree.old) (T.fault_count tree.new) }
{
    let Ok(named) = folder.copy(alloc) else {
        return Err(stopped_before(out_of_memory(true)));
    };
    made_or_stopped(tree.sync_folder(alloc, folder), named, true)
}
