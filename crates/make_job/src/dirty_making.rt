//! The making of a thing, with the dirty folders: the one that holds it joins them before it is made, when
//! there may still be no memory, and leaves them with its sync.
ghost use Rattle.std.specs.Prelude.{◌≡◌};
ghost use Rattle.job_reports.specs.Paths.{folder_of};
ghost use Rattle.make_job.specs.Makings.{is_dirty};
ghost use Rattle.make_job.specs.MakingAnswers.{LastMakingAnswered, MakingAnswered};
ghost use Rattle.make_job.specs.MakingSteps.{LastMakingStep, MakingStep};
ghost use Rattle.job_unsynced.specs.Folders.{after_try, with_change};

use crate::making::ThingMaking;
use job_reports::{Did, Ending, LastStepResult, StepResult, out_of_memory};
use job_unsynced::{Dirty, without_call};
use std::alloc::Global;
use tree_trait::Tree;

/// Does the next piece of work of a making.
pub fn step_making<T: Tree>(
    making: &mut ThingMaking,
    alloc: Global,
    tree: &mut T,
    dirty: &mut Dirty,
) -> StepResult
    ensures steps { MakingStep making.old making.new result.did result.calls (T.contents tree.old)
        (T.contents tree.new) (T.fault_count tree.old) (T.fault_count tree.new) }
    ensures answered { MakingAnswered making.old result.did (T.answered tree.old) (T.answered tree.new) }
    ensures leaves { dirty.new ≡ with_change (is_dirty making.old.stage) (is_dirty making.new.stage)
        (folder_of making.old.path) dirty.old }
{
    let Ok(readied) = dirty.ready(alloc, making.folder(), making.is_fresh(), making.is_dirty())
    else {
        return without_call(Did::Troubled(out_of_memory(false)));
    };
    let stepped = making.step(alloc, tree);
    dirty.follow(readied, making.is_dirty(), making.folder());
    stepped
}

/// Makes the next of the last steps of a making.
pub fn wind_up_making<T: Tree>(
    making: &mut ThingMaking,
    alloc: Global,
    tree: &mut T,
    ending: Ending,
    dirty: &mut Dirty,
) -> LastStepResult
    ensures winds { LastMakingStep ending making.old making.new result.did result.calls result.left
        (T.contents tree.old)
        (T.contents tree.new) (T.fault_count tree.old) (T.fault_count tree.new) }
    ensures answered { LastMakingAnswered making.old result.did result.left
        (T.answered tree.old) (T.answered tree.new) }
    ensures tries { dirty.new ≡ after_try result.did result.left (folder_of making.old.path) dirty.old }
{
    let stepped = making.wind_up(alloc, tree, ending);
    dirty.note_try(&stepped.did, stepped.left, making.folder());
    stepped
}
