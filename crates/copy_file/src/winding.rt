//! The last steps of a copy that is aborted or killed: one try to remove its part,
//! one try to sync the folder.
ghost use Rattle.std.specs.Prelude.{◌≡◌, ◌≤◌, None};
ghost use Rattle.copy_file.specs.Copying.{IsSound, copying};
ghost use Rattle.copy_file.specs.LastSteps.{Ends, Leaves, Removes, WindMoves, removable};
ghost use Rattle.job_reports.specs.Stops.{refusal_in};

use crate::item::CopyPaths;
use crate::stage::{FolderState, Stage};
use job_reports::{Did, Ending, calls_made, refusal_in};
use mc_text::Path;
use std::alloc::Global;
use tree_trait::{Tree, TreeError};

/// What a last step did, how many changing calls it made, the refusal of a sync that was tried in vain, and
/// where the copy stands then.
#[derive(Debug, Drop)]
pub(crate) struct AfterLastStep {
    pub(crate) did: Did,
    pub(crate) calls: u64,
    pub(crate) left: Option<TreeError>,
    pub(crate) stage: Stage,
    pub(crate) folder: FolderState,
}

/// Makes the next of the last steps. None of them takes memory of its own.
pub(crate) fn wind<T: Tree>(
    alloc: Global,
    tree: &mut T,
    item: &CopyPaths,
    stage: Stage,
    folder: FolderState,
    ending: Ending,
) -> AfterLastStep
    requires { IsSound stage folder }
    ensures { WindMoves ending (copying item.now stage folder) result (T.contents tree.old)
        (T.contents tree.new)
        (T.fault_count tree.old) (T.fault_count tree.new) }
{
    match stage {
        Stage::Fill { part, .. } => remove_or_leave(alloc, tree, item, part),
        Stage::Clean { part, .. } => remove_or_leave(alloc, tree, item, part),
        Stage::Begin => sync_or_end(alloc, tree, item, Stage::Begin, folder, ending),
        Stage::Left { part } => sync_or_end(
            alloc,
            tree,
            item,
            Stage::Left { part },
            folder,
            ending,
        ),
        Stage::Decided => sync_or_end(alloc, tree, item, Stage::Decided, folder, ending),
    }
}

/// Tries to remove the part. One that stays has had its try, and the folder's sync is tried at once.
fn remove_or_leave<T: Tree>(
    alloc: Global,
    tree: &mut T,
    item: &CopyPaths,
    part: Path,
) -> AfterLastStep
    ensures { Removes item.now part result (T.contents tree.old) (T.contents tree.new)
        (T.fault_count tree.old) (T.fault_count tree.new) }
{
    match tree.remove_file(alloc, &part) {
        Ok(()) => AfterLastStep {
            did: Did::Cleaned(part),
            calls: 1,
            left: None,
            stage: Stage::Decided,
            folder: FolderState::Dirty,
        },
        Err(error) => leave(alloc, tree, item, part, calls_made(Err(error))),
    }
}

/// The sync of the folder after so many calls, where the part stays.
fn leave<T: Tree>(
    alloc: Global,
    tree: &mut T,
    item: &CopyPaths,
    part: Path,
    calls: u64,
) -> AfterLastStep
    requires { calls ≤ 1 }
    ensures { Leaves item.now part calls result (T.contents tree.old) (T.contents tree.new)
        (T.fault_count tree.old) (T.fault_count tree.new) }
{
    let answer = tree.sync_folder(alloc, item.folder());
    AfterLastStep {
        did: Did::Barrier,
        calls: calls + calls_made(answer),
        left: refusal_in(answer),
        stage: Stage::Left { part },
        folder: FolderState::Synced,
    }
}

/// With no part to be removed: the sync, if the folder is owed one, and then the end.
fn sync_or_end<T: Tree>(
    alloc: Global,
    tree: &mut T,
    item: &CopyPaths,
    stage: Stage,
    folder: FolderState,
    ending: Ending,
) -> AfterLastStep
    requires { removable stage ≡ None }
    ensures { WindMoves ending (copying item.now stage folder) result (T.contents tree.old)
        (T.contents tree.new)
        (T.fault_count tree.old) (T.fault_count tree.new) }
{
    match folder {
        FolderState::Dirty => try_sync(alloc, tree, item, stage),
        FolderState::Synced => end(stage, ending),
    }
}

fn try_sync<T: Tree>(alloc: Global, tree: &mut T, item: &CopyPaths, stage: Stage) -> AfterLastStep
    requires { removable stage ≡ None }
    ensures { (ending : Ending) → WindMoves ending (copying item.now stage FolderState.Dirty) result
        (T.contents tree.old) (T.contents tree.new)
        (T.fault_count tree.old) (T.fault_count tree.new) }
{
    let synced = tree.sync_folder(alloc, item.folder());
    AfterLastStep {
        did: Did::Barrier,
        calls: calls_made(synced),
        left: refusal_in(synced),
        stage,
        folder: FolderState::Synced,
    }
}

/// The end names the part that stays.
fn end(stage: Stage, ending: Ending) -> AfterLastStep
    requires { removable stage ≡ None }
    ensures { Ends ending stage result }
{
    match stage {
        Stage::Left { part } => ended(ending, Some(part), Stage::Decided),
        stage => ended(ending, None, stage),
    }
}

fn ended(ending: Ending, part: Option<Path>, stage: Stage) -> AfterLastStep
    ensures { result ≡ record {
      did = Did.Ended ending part;
      calls = 0;
      left = None;
      stage = stage;
      folder = FolderState.Synced;
    } }
{
    AfterLastStep {
        did: Did::Ended { ending, part },
        calls: 0,
        left: None,
        stage,
        folder: FolderState::Synced,
    }
}
