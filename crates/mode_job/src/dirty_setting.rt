//! The setting of a mode, with what is dirty: the thing itself joins that before it is given its mode, when
//! there may still be no memory, and leaves it with its sync.
ghost use Rattle.std.specs.Prelude.{◌≡◌};
ghost use Rattle.job_unsynced.specs.Folders.{after_try, with_change};
ghost use Rattle.mode_job.specs.Settings.{is_dirty};
ghost use Rattle.mode_job.specs.SettingSteps.{StepsOn, Winds};

use crate::setting::ModeSetting;
use job_answers::Replies;
use job_reports::{Did, Ending, LastStepResult, StepResult, out_of_memory};
use job_unsynced::{Dirty, without_call};
use std::alloc::Global;
use tree_trait::Tree;

/// Does the next piece of work of a setting, where this was answered to the job's troubles.
pub fn step_setting<T: Tree>(
    setting: &mut ModeSetting,
    alloc: Global,
    tree: &mut T,
    dirty: &mut Dirty,
    replies: Replies,
) -> StepResult
    ensures steps { StepsOn replies setting.old setting.new result.did result.calls (T.contents tree.old)
        (T.contents tree.new) (T.fault_count tree.old) (T.fault_count tree.new) }
    ensures leaves { dirty.new
        ≡ with_change (is_dirty setting.old.stage) (is_dirty setting.new.stage) setting.old.path dirty.old }
{
    let Ok(readied) = dirty.ready(
        alloc,
        setting.path(),
        setting.is_fresh(),
        setting.is_dirty(),
    ) else {
        return without_call(Did::Troubled(out_of_memory(false)));
    };
    let stepped = setting.step(alloc, tree, replies);
    dirty.follow(readied, setting.is_dirty(), setting.path());
    stepped
}

/// Makes the next of the last steps of a setting.
pub fn wind_up_setting<T: Tree>(
    setting: &mut ModeSetting,
    alloc: Global,
    tree: &mut T,
    ending: Ending,
    dirty: &mut Dirty,
) -> LastStepResult
    ensures winds { Winds ending setting.old setting.new result (T.contents tree.old)
        (T.contents tree.new) (T.fault_count tree.old) (T.fault_count tree.new) }
    ensures tries { dirty.new ≡ after_try result.did result.left setting.old.path dirty.old }
{
    let stepped = setting.wind_up(alloc, tree, ending);
    dirty.note_try(&stepped.did, stepped.left, setting.path());
    stepped
}
