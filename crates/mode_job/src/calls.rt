//! The calls of a setting: each refusal is named with its path.
ghost use Rattle.std.specs.Prelude.{◌≡◌, ◌∷◌, [], true};
ghost use Rattle.tree_trait.specs.Calls.{SyncFile};
ghost use Rattle.job_reports.specs.Stops.{Ran};
ghost use Rattle.mode_job.specs.SettingSteps.{SyncRan, sync_by};

use copy_file::look;
use job_reports::{Stop, Trouble, made_or_stopped, out_of_memory, stopped_before, sync_names};
use mc_text::{Kind, Path};
use std::alloc::Global;
use tree_trait::Tree;

/// Syncs what stands at a path, after a look at what it is.
pub fn sync_thing<T: Tree>(alloc: Global, tree: &mut T, path: &Path) -> Result<u64, Stop>
    ensures { SyncRan path.now result (T.contents tree.old) (T.contents tree.new)
        (T.fault_count tree.old) (T.fault_count tree.new) }
{
    match look(alloc, tree, path) {
        Ok(meta) => sync_kind(alloc, tree, path, meta.kind),
        Err(trouble) => Err(stopped_before(at_barrier(trouble))),
    }
}

/// The sync of a folder, or of anything else as of a file.
fn sync_kind<T: Tree>(alloc: Global, tree: &mut T, path: &Path, kind: Kind) -> Result<u64, Stop>
    ensures { Ran (sync_by kind path.now ∷ []) true result (T.contents tree.old) (T.contents tree.new)
        (T.fault_count tree.old) (T.fault_count tree.new) }
{
    match kind {
        Kind::Folder => sync_names(alloc, tree, path),
        Kind::File => sync_file(alloc, tree, path),
        Kind::Link => sync_file(alloc, tree, path),
        Kind::Other => sync_file(alloc, tree, path),
    }
}

fn sync_file<T: Tree>(alloc: Global, tree: &mut T, path: &Path) -> Result<u64, Stop>
    ensures { Ran (SyncFile path.now ∷ []) true result (T.contents tree.old) (T.contents tree.new)
        (T.fault_count tree.old) (T.fault_count tree.new) }
{
    // The path of the report comes first: after the call it is too late to find no memory.
    let Ok(named) = path.copy(alloc) else {
        return Err(stopped_before(out_of_memory(true)));
    };
    made_or_stopped(tree.sync_file(alloc, path), named, true)
}

/// A look's trouble, where nothing can be skipped.
fn at_barrier(trouble: Trouble) -> Trouble
    ensures { result ≡ record { cause = trouble.cause; path = trouble.path; barrier = true } }
{
    Trouble {
        cause: trouble.cause,
        path: trouble.path,
        barrier: true,
    }
}
