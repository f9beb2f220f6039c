//! The calls that change a part, and those that bring it to its place: each refusal is named with its path.
ghost use Rattle.std.specs.Prelude.{◌+◌, ◌≤◌, ◌^◌, ◌∷◌, [], length, false};
ghost use Rattle.tree_trait.specs.Calls.{MakeFile, WriteAt, Rename, SyncFile};
ghost use Rattle.copy_file.specs.CopyCalls.{moding, placing};
ghost use Rattle.job_reports.specs.Stops.{Ran, RanFolded};

use job_reports::{
    Stop, after_calls, made_or_stopped, out_of_memory, rename_thing, set_mode, stopped_before,
};
use mc_text::Path;
use std::alloc::Global;
use tree_trait::Tree;

/// A part is made with these bits of its mode: its owner may read and write it.
pub(crate) const PART_MODE: u16 = 0o600;

/// Makes the part, with no bytes.
pub(crate) fn make_part<T: Tree>(
    alloc: Global,
    tree: &mut T,
    part: &Path,
    mode: u16,
) -> Result<u64, Stop>
    requires { mode ≤ 0o7777 }
    ensures { Ran (MakeFile part.now mode ∷ []) false result (T.contents tree.old) (T.contents tree.new)
        (T.fault_count tree.old) (T.fault_count tree.new) }
{
    // The path of the report comes first, here and below: after the call it is too late to find no memory.
    let Ok(named) = part.copy(alloc) else {
        return Err(stopped_before(out_of_memory(false)));
    };
    made_or_stopped(tree.make_file(alloc, part, mode), named, false)
}

pub(crate) fn write_part<T: Tree>(
    alloc: Global,
    tree: &mut T,
    part: &Path,
    offset: u64,
    bytes: &[u8],
) -> Result<u64, Stop>
    requires { offset + length bytes.now ≤ 2 ^ 63 }
    ensures { Ran (WriteAt part.now offset bytes.now ∷ []) false result (T.contents tree.old)
        (T.contents tree.new)
        (T.fault_count tree.old) (T.fault_count tree.new) }
{
    let Ok(named) = part.copy(alloc) else {
        return Err(stopped_before(out_of_memory(false)));
    };
    made_or_stopped(tree.write_at(alloc, part, offset, bytes), named, false)
}

/// Brings a full part to the target. It is synced before it is renamed, so that no
/// crash leaves half a target.
#[tactic(auto, unfolding(job_reports::specs::Stops::RanFolded))]
pub(crate) fn place<T: Tree>(
    alloc: Global,
    tree: &mut T,
    part: &Path,
    mode: u16,
    target: &Path,
) -> Result<u64, Stop>
    requires { mode ≤ 0o7777 }
    ensures { Ran (placing mode part.now target.now) false result (T.contents tree.old) (T.contents tree.new)
        (T.fault_count tree.old) (T.fault_count tree.new) }
{
    match give_mode(alloc, tree, part, mode) {
        Ok(calls) => after_calls(calls, sync_and_rename(alloc, tree, part, target)),
        Err(stop) => Err(stop),
    }
}

/// Gives the part the source's mode, where it was made with another.
fn give_mode<T: Tree>(alloc: Global, tree: &mut T, part: &Path, mode: u16) -> Result<u64, Stop>
    requires { mode ≤ 0o7777 }
    ensures { Ran (moding part.now mode) false result (T.contents tree.old) (T.contents tree.new)
        (T.fault_count tree.old) (T.fault_count tree.new) }
{
    if mode | PART_MODE == mode {
        return Ok(0);
    }
    set_mode(alloc, tree, part, mode)
}

#[tactic(auto, using(job_reports::proofs::Runs::two_calls))]
fn sync_and_rename<T: Tree>(
    alloc: Global,
    tree: &mut T,
    part: &Path,
    target: &Path,
) -> Result<u64, Stop>
    ensures { RanFolded (SyncFile part.now ∷ Rename part.now target.now ∷ []) false result
        (T.contents tree.old) (T.contents tree.new)
        (T.fault_count tree.old) (T.fault_count tree.new) }
{
    match sync_part(alloc, tree, part) {
        Ok(calls) => after_calls(calls, rename_part(alloc, tree, part, target)),
        Err(stop) => Err(stop),
    }
}

#[tactic(auto, unfolding(job_reports::specs::Stops::RanFolded))]
fn sync_part<T: Tree>(alloc: Global, tree: &mut T, part: &Path) -> Result<u64, Stop>
    ensures { RanFolded (SyncFile part.now ∷ []) false result (T.contents tree.old) (T.contents tree.new)
        (T.fault_count tree.old) (T.fault_count tree.new) }
{
    let Ok(named) = part.copy(alloc) else {
        return Err(stopped_before(out_of_memory(false)));
    };
    made_or_stopped(tree.sync_file(alloc, part), named, false)
}

#[tactic(auto, unfolding(job_reports::specs::Stops::RanFolded))]
fn rename_part<T: Tree>(
    alloc: Global,
    tree: &mut T,
    part: &Path,
    target: &Path,
) -> Result<u64, Stop>
    ensures { RanFolded (Rename part.now target.now ∷ []) false result (T.contents tree.old)
        (T.contents tree.new)
        (T.fault_count tree.old) (T.fault_count tree.new) }
{
    rename_thing(alloc, tree, part, target)
}
