//! The last steps of a carrying that is aborted or killed: one try to remove its part, one try of each sync
//! that is owed. The source stays, where it still stands.
ghost use Rattle.std.specs.Prelude.{◌≡◌, ◌+◌, ◌≤◌, None, Some};
ghost use Rattle.job_reports.specs.Paths.{folder_of};
ghost use Rattle.carry_job.specs.Carryings.{IsFileOf, IsOwn};
ghost use Rattle.carry_job.specs.LastCarrySteps.{TriesPart, TriesSync, WindsAt, last_step};
ghost use Rattle.carry_job.specs.declared.stage.CarryStage.TheVariants as Carry;

use crate::stage::CarryStage;
use copy_file::{CopyPaths, FileCopy, FolderState};
use job_reports::{Did, Ending, calls_made, refusal_in};
use mc_text::Path;
use std::alloc::Global;
use tree_trait::{Tree, TreeError};

/// What a last step did, how many changing calls it made, the refusal of a sync that was tried in vain, and
/// where the carrying stands then.
#[derive(Debug, Drop)]
pub(crate) struct AfterLastStep {
    pub(crate) did: Did,
    pub(crate) calls: u64,
    pub(crate) left: Option<TreeError>,
    pub(crate) stage: CarryStage,
}

/// Makes the next of the last steps. None of them takes memory of its own.
pub(crate) fn wind<T: Tree>(
    alloc: Global,
    tree: &mut T,
    places: &CopyPaths,
    stage: CarryStage,
    ending: Ending,
) -> AfterLastStep
    requires own { IsOwn places.now stage }
    ensures winds { WindsAt places.now ending stage result
        (T.contents tree.old) (T.contents tree.new) (T.fault_count tree.old) (T.fault_count tree.new) }
    ensures own { IsOwn places.now result.stage }
{
    match stage {
        CarryStage::File(copy) => wind_file(alloc, tree, places, copy),
        CarryStage::Link(copy) => remove_or_leave(alloc, tree, places, copy.into_part()),
        CarryStage::Take { folder } => wind_taking(alloc, tree, places, folder, ending),
        CarryStage::SyncTarget => try_sync(alloc, tree, places.folder(), CarryStage::PassedOver),
        CarryStage::Settle => try_sync(alloc, tree, places.folder(), CarryStage::PassedOver),
        CarryStage::SyncSource => try_sync(alloc, tree, places.source_folder(), CarryStage::Finish),
        CarryStage::Remove => end(ending, None, CarryStage::Remove),
        CarryStage::Finish => end(ending, None, CarryStage::Finish),
        CarryStage::PassedOver => end(ending, None, CarryStage::PassedOver),
        CarryStage::Stays(part) => end(ending, Some(part), CarryStage::PassedOver),
    }
}

/// The part of a file.
fn wind_file<T: Tree>(
    alloc: Global,
    tree: &mut T,
    places: &CopyPaths,
    copy: FileCopy,
) -> AfterLastStep
    requires own { IsFileOf places.now copy }
    ensures winds { (ending : Ending) → WindsAt places.now ending (Carry.File copy) result
        (T.contents tree.old) (T.contents tree.new) (T.fault_count tree.old) (T.fault_count tree.new) }
    ensures own { IsOwn places.now result.stage }
{
    match copy.into_part() {
        Some(part) => remove_or_leave(alloc, tree, places, part),
        None => unreachable!(),
    }
}

/// Tries to remove the part. One that stays has had its try, and the folder's sync is tried at once.
fn remove_or_leave<T: Tree>(
    alloc: Global,
    tree: &mut T,
    places: &CopyPaths,
    part: Path,
) -> AfterLastStep
    ensures tries { TriesPart places.now part result
        (T.contents tree.old) (T.contents tree.new) (T.fault_count tree.old) (T.fault_count tree.new) }
    ensures own { IsOwn places.now result.stage }
{
    match tree.remove_file(alloc, &part) {
        Ok(()) => AfterLastStep {
            did: Did::Cleaned(part),
            calls: 1,
            left: None,
            stage: CarryStage::Settle,
        },
        Err(error) => {
            let tried = try_sync(alloc, tree, places.folder(), CarryStage::Stays(part));
            after_refusal(calls_made(Err(error)), tried)
        }
    }
}

/// A last step that was begun by so many calls in vain.
fn after_refusal(calls: u64, tried: AfterLastStep) -> AfterLastStep
    requires few { calls ≤ 1 }
    requires few_more { tried.calls ≤ 1 }
    ensures { result ≡ record tried { calls = calls + tried.calls } }
{
    AfterLastStep {
        did: tried.did,
        calls: calls + tried.calls,
        left: tried.left,
        stage: tried.stage,
    }
}

/// The folder to which the thing was to come is dirty, or nothing was changed.
fn wind_taking<T: Tree>(
    alloc: Global,
    tree: &mut T,
    places: &CopyPaths,
    folder: FolderState,
    ending: Ending,
) -> AfterLastStep
    ensures winds { WindsAt places.now ending (Carry.Take folder) result
        (T.contents tree.old) (T.contents tree.new) (T.fault_count tree.old) (T.fault_count tree.new) }
    ensures own { IsOwn places.now result.stage }
{
    match folder {
        FolderState::Dirty => try_sync(alloc, tree, places.folder(), CarryStage::PassedOver),
        FolderState::Synced => end(ending, None, CarryStage::Take { folder }),
    }
}

/// The one try to sync a folder.
fn try_sync<T: Tree>(alloc: Global, tree: &mut T, folder: &Path, stage: CarryStage) -> AfterLastStep
    ensures tries { TriesSync folder.now stage result
        (T.contents tree.old) (T.contents tree.new) (T.fault_count tree.old) (T.fault_count tree.new) }
    ensures few { result.calls ≤ 1 }
    ensures stage { result.stage ≡ stage }
{
    let answer = tree.sync_folder(alloc, folder);
    AfterLastStep {
        did: Did::Barrier,
        calls: calls_made(answer),
        left: refusal_in(answer),
        stage,
    }
}

/// The end names a part that stays.
fn end(ending: Ending, part: Option<Path>, stage: CarryStage) -> AfterLastStep
    ensures { result ≡ last_step (Did.Ended ending part) 0 None stage }
{
    AfterLastStep {
        did: Did::Ended { ending, part },
        calls: 0,
        left: None,
        stage,
    }
}
