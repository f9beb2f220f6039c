//! The move of a thing, with the dirty folders: the one to which it goes and the one in which it was join
//! them before it is renamed, when there may still be no memory, and each leaves them with its sync.
ghost use Rattle.std.specs.Prelude.{◌≡◌, false, true, if◌then◌else◌};
ghost use Rattle.job_reports.specs.Paths.{folder_of};
ghost use Rattle.move_job.specs.Movings.{is_fresh, owed_folder, with_moves};
ghost use Rattle.move_job.specs.MovingSteps.{LastMovingStep, MovingStep};
ghost use Rattle.job_unsynced.specs.Folders.{after_try};

use crate::moving::ThingMoving;
use job_answers::Replies;
use job_reports::{Did, Ending, LastStepResult, StepResult, out_of_memory};
use job_unsynced::{Dirty, but_not, without_call};
use std::alloc::Global;
use tree_trait::Tree;

/// Does the next piece of work of a move.
pub fn step_moving<T: Tree>(
    moving: &mut ThingMoving,
    alloc: Global,
    tree: &mut T,
    dirty: &mut Dirty,
    replies: Replies,
) -> StepResult
    ensures steps { MovingStep replies moving.old moving.new result.did result.calls (T.contents tree.old)
        (T.contents tree.new) (T.fault_count tree.old) (T.fault_count tree.new) }
    ensures leaves { dirty.new ≡ with_moves moving.old.stage moving.new.stage moving.old.pair dirty.old }
{
    if moving.is_fresh() {
        take_with(moving, alloc, tree, dirty, replies)
    } else {
        sync_with(moving, alloc, tree, dirty, replies)
    }
}

/// The renaming: both folders join before it, and leave again where nothing was renamed.
fn take_with<T: Tree>(
    moving: &mut ThingMoving,
    alloc: Global,
    tree: &mut T,
    dirty: &mut Dirty,
    replies: Replies,
) -> StepResult
    requires fresh { is_fresh moving.old.stage ≡ true }
    ensures steps { MovingStep replies moving.old moving.new result.did result.calls (T.contents tree.old)
        (T.contents tree.new) (T.fault_count tree.old) (T.fault_count tree.new) }
    ensures leaves { dirty.new ≡ with_moves moving.old.stage moving.new.stage moving.old.pair dirty.old }
{
    let Ok(target_joined) = dirty.join(alloc, moving.folder()) else {
        return without_call(Did::Troubled(out_of_memory(false)));
    };
    let Ok(source_joined) = dirty.join(alloc, moving.source_folder()) else {
        dirty.drop_last_if(target_joined);
        return without_call(Did::Troubled(out_of_memory(false)));
    };
    let stepped = moving.step(alloc, tree, replies);
    dirty.drop_last_if(but_not(source_joined, moving.is_dirty()));
    dirty.drop_last_if(but_not(target_joined, moving.is_dirty()));
    stepped
}

/// A sync, with which its folder leaves.
fn sync_with<T: Tree>(
    moving: &mut ThingMoving,
    alloc: Global,
    tree: &mut T,
    dirty: &mut Dirty,
    replies: Replies,
) -> StepResult
    requires changed { is_fresh moving.old.stage ≡ false }
    ensures steps { MovingStep replies moving.old moving.new result.did result.calls (T.contents tree.old)
        (T.contents tree.new) (T.fault_count tree.old) (T.fault_count tree.new) }
    ensures leaves { dirty.new ≡ with_moves moving.old.stage moving.new.stage moving.old.pair dirty.old }
{
    let owed_target = moving.owes_target();
    let owed_source = moving.is_dirty();
    let stepped = moving.step(alloc, tree, replies);
    dirty.remove_if(but_not(owed_target, moving.owes_target()), moving.folder());
    dirty.remove_if(
        but_not(owed_source, moving.is_dirty()),
        moving.source_folder(),
    );
    stepped
}

/// Makes the next of the last steps of a move.
pub fn wind_up_moving<T: Tree>(
    moving: &mut ThingMoving,
    alloc: Global,
    tree: &mut T,
    ending: Ending,
    dirty: &mut Dirty,
) -> LastStepResult
    ensures winds { LastMovingStep ending moving.old moving.new result.did result.calls result.left
        (T.contents tree.old)
        (T.contents tree.new) (T.fault_count tree.old) (T.fault_count tree.new) }
    ensures tries { dirty.new ≡ after_try result.did result.left (owed_folder moving.old) dirty.old }
{
    let owed_target = moving.owes_target();
    let stepped = moving.wind_up(alloc, tree, ending);
    note(moving, owed_target, &stepped, dirty);
    stepped
}

/// Notes that a last step tried the one of the two folders, if it tried any.
fn note(moving: &ThingMoving, owed_target: bool, stepped: &LastStepResult, dirty: &mut Dirty)
    ensures { dirty.new ≡ after_try stepped.now.did stepped.now.left (if owed_target
        then folder_of moving.now.pair.target else folder_of moving.now.pair.source) dirty.old }
{
    if owed_target {
        return dirty.note_try(&stepped.did, stepped.left, moving.folder());
    }
    dirty.note_try(&stepped.did, stepped.left, moving.source_folder())
}
