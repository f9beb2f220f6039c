//! The call that makes a folder: its refusal is named with its path.
ghost use Rattle.std.specs.Prelude.{◌≤◌, ◌∷◌, [], false};
ghost use Rattle.tree_trait.specs.Calls.{MakeFolder};
ghost use Rattle.job_reports.specs.Stops.{Ran};

use job_reports::{Stop, made_or_stopped, out_of_memory, stopped_before};
use mc_text::Path;
use std::alloc::Global;
use tree_trait::Tree;

pub(crate) fn make_folder<T: Tree>(
    alloc: Global,
    tree: &mut T,
    folder: &Path,
    mode: u16,
) -> Result<u64, Stop>
    requires { mode ≤ 0o7777 }
    ensures { Ran (MakeFolder folder.now mode ∷ []) false result (T.contents tree.old) (T.contents tree.new)
        (T.fault_count tree.old) (T.fault_count tree.new) }
{
    // The path of the report comes first: after the call it is too late to find no memory.
    let Ok(named) = folder.copy(alloc) else {
        return Err(stopped_before(out_of_memory(false)));
    };
    made_or_stopped(tree.make_folder(alloc, folder, mode), named, false)
}
