//! The removal of an emptied folder, with the dirty folders: the one around joins them before it is
//! removed, when there may still be no memory, and leaves them with its sync.
ghost use Rattle.std.specs.Prelude.{◌≡◌};
ghost use Rattle.job_reports.specs.Paths.{folder_of};
ghost use Rattle.emptied_job.specs.Removals.{is_dirty};
ghost use Rattle.emptied_job.specs.RemovalSteps.{LastRemovalStep, RemovalStep};
ghost use Rattle.job_unsynced.specs.Folders.{after_try, with_change};

use crate::removal::FolderRemoval;
use job_answers::Replies;
use job_reports::{Did, Ending, LastStepResult, StepResult, out_of_memory};
use job_unsynced::{Dirty, without_call};
use std::alloc::Global;
use tree_trait::Tree;

/// Does the next piece of work of a removal, where this was answered to the job's troubles.
pub fn step_removal<T: Tree>(
    removal: &mut FolderRemoval,
    alloc: Global,
    tree: &mut T,
    dirty: &mut Dirty,
    replies: Replies,
) -> StepResult
    ensures steps { RemovalStep replies removal.old removal.new result.did result.calls (T.contents tree.old)
        (T.contents tree.new) (T.fault_count tree.old) (T.fault_count tree.new) }
    ensures leaves { dirty.new ≡ with_change (is_dirty removal.old.stage) (is_dirty removal.new.stage)
        (folder_of removal.old.path) dirty.old }
{
    let Ok(readied) = dirty.ready(
        alloc,
        removal.folder(),
        removal.is_fresh(),
        removal.is_dirty(),
    ) else {
        return without_call(Did::Troubled(out_of_memory(false)));
    };
    let stepped = removal.step(alloc, tree, replies);
    dirty.follow(readied, removal.is_dirty(), removal.folder());
    stepped
}

/// Makes the next of the last steps of a removal.
pub fn wind_up_removal<T: Tree>(
    removal: &mut FolderRemoval,
    alloc: Global,
    tree: &mut T,
    ending: Ending,
    dirty: &mut Dirty,
) -> LastStepResult
    ensures winds { LastRemovalStep ending removal.old removal.new result.did result.calls result.left
        (T.contents tree.old) (T.contents tree.new) (T.fault_count tree.old) (T.fault_count tree.new) }
    ensures tries { dirty.new ≡ after_try result.did result.left (folder_of removal.old.path) dirty.old }
{
    let stepped = removal.wind_up(alloc, tree, ending);
    dirty.note_try(&stepped.did, stepped.left, removal.folder());
    stepped
}
