//! The calls behind a copy that stands at its target: the sync of the folder there, the removal of the
//! source, and the sync of its folder.
ghost use Rattle.std.specs.Prelude.{◌≡◌, ◌∷◌, [], false, true};
ghost use Rattle.tree_trait.specs.Calls.{RemoveFile, SyncFolder};
ghost use Rattle.job_reports.specs.Paths.{folder_of};
ghost use Rattle.job_reports.specs.Stops.{Ran};
ghost use Rattle.carry_job.specs.Carryings.{IsGoing};
ghost use Rattle.carry_job.specs.CarrySteps.{MakesCall, Removes, after_step};

use crate::beginning::uncalled;
use crate::stage::{AfterStep, CarryStage};
use copy_file::CopyPaths;
use job_reports::{Did, Stop, made_or_stopped, out_of_memory, stopped_before, sync_names};
use mc_text::Path;
use std::alloc::Global;
use tree_trait::Tree;

/// A trouble leaves the carrying where it stood.
fn troubled(stop: Stop, stage: CarryStage) -> AfterStep
    ensures { result ≡ after_step (Did.Troubled stop.trouble) stop.calls stage }
{
    AfterStep {
        did: Did::Troubled(stop.trouble),
        calls: stop.calls,
        stage,
    }
}

/// The name of the copy is brought onto the disk. Only then the source may go.
pub(crate) fn sync_target<T: Tree>(alloc: Global, tree: &mut T, places: &CopyPaths) -> AfterStep
    ensures calls { MakesCall (SyncFolder (folder_of places.now.target)) true Did.Barrier
        CarryStage.SyncTarget CarryStage.Remove result
        (T.contents tree.old) (T.contents tree.new) (T.fault_count tree.old) (T.fault_count tree.new) }
    ensures going { IsGoing places.now result.stage }
{
    match sync_names(alloc, tree, places.folder()) {
        Ok(calls) => AfterStep {
            did: Did::Barrier,
            calls,
            stage: CarryStage::Remove,
        },
        Err(stop) => troubled(stop, CarryStage::SyncTarget),
    }
}

/// The removal of a part is brought onto the disk, where the thing is passed over.
pub(crate) fn settle<T: Tree>(alloc: Global, tree: &mut T, places: &CopyPaths) -> AfterStep
    ensures calls { MakesCall (SyncFolder (folder_of places.now.target)) true Did.Barrier CarryStage.Settle
        CarryStage.PassedOver result
        (T.contents tree.old) (T.contents tree.new) (T.fault_count tree.old) (T.fault_count tree.new) }
    ensures going { IsGoing places.now result.stage }
{
    let folder = places.folder();
    match sync_names(alloc, tree, folder) {
        Ok(calls) => AfterStep {
            did: Did::Barrier,
            calls,
            stage: CarryStage::PassedOver,
        },
        Err(stop) => troubled(stop, CarryStage::Settle),
    }
}

/// The source is removed. A refusal is tried again alone, or the thing stands twice.
pub(crate) fn remove<T: Tree>(alloc: Global, tree: &mut T, places: &CopyPaths) -> AfterStep
    ensures removes { Removes places.now result
        (T.contents tree.old) (T.contents tree.new) (T.fault_count tree.old) (T.fault_count tree.new) }
    ensures going { IsGoing places.now result.stage }
{
    // The path of the report comes first: after the call it is too late to find no memory.
    let Ok(source) = places.source().copy(alloc) else {
        return uncalled(Did::Troubled(out_of_memory(false)), CarryStage::Remove);
    };
    match remove_source(alloc, tree, places.source()) {
        Ok(calls) => AfterStep {
            did: Did::Removed(source),
            calls,
            stage: CarryStage::SyncSource,
        },
        Err(stop) => troubled(stop, CarryStage::Remove),
    }
}

fn remove_source<T: Tree>(alloc: Global, tree: &mut T, source: &Path) -> Result<u64, Stop>
    ensures { Ran (RemoveFile source.now ∷ []) false result
        (T.contents tree.old) (T.contents tree.new) (T.fault_count tree.old) (T.fault_count tree.new) }
{
    let Ok(named) = source.copy(alloc) else {
        return Err(stopped_before(out_of_memory(false)));
    };
    made_or_stopped(tree.remove_file(alloc, source), named, false)
}

/// The removal is brought onto the disk.
pub(crate) fn sync_source<T: Tree>(alloc: Global, tree: &mut T, places: &CopyPaths) -> AfterStep
    ensures calls { MakesCall (SyncFolder (folder_of places.now.source)) true Did.Barrier
        CarryStage.SyncSource CarryStage.Finish result
        (T.contents tree.old) (T.contents tree.new) (T.fault_count tree.old) (T.fault_count tree.new) }
    ensures going { IsGoing places.now result.stage }
{
    match sync_names(alloc, tree, places.source_folder()) {
        Ok(calls) => AfterStep {
            did: Did::Barrier,
            calls,
            stage: CarryStage::Finish,
        },
        Err(stop) => troubled(stop, CarryStage::SyncSource),
    }
}
