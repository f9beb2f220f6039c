//! A step with the list of dirty folders: the folder that is worked joins it before its first change, when
//! there may still be no memory, and leaves it with its sync.
ghost use Rattle.std.specs.Prelude.{◌≡◌, List, false, true};
ghost use Rattle.mc_text.specs.Routes.{Route};
ghost use Rattle.copy_folders.specs.FolderCopying.{is_dirty};
ghost use Rattle.copy_tree.specs.Standing.{seen_copy};
ghost use Rattle.copy_tree.specs.TreeCopySteps.{IsWorkable};
ghost use Rattle.job_reports.specs.Stops.{out_of_memory_at};
ghost use Rattle.copy_job.specs.Leaving.{is_done as has_ended, may_leave};
ghost use Rattle.copy_job.specs.Marks.{brings_made as brings};
ghost use Rattle.copy_job.specs.SubtreeSteps.{ListSteps};

use crate::dirt::{brings_made, is_left_dirty};
use crate::leaving::is_done;
use crate::standing::is_at_barrier;
use copy_tree::TreeCopy;
use job_answers::Replies;
use job_reports::{Did, PartTest, StepResult, out_of_memory};
use job_unsynced::{Dirty, but_not};
use std::alloc::Global;
use tree_trait::Tree;

/// Makes a step, where no folder is left to be left.
pub(crate) fn work<T: Tree, P: PartTest>(
    machine: &mut TreeCopy,
    alloc: Global,
    tree: &mut T,
    parts: &P,
    replies: Replies,
    dirty: &mut Dirty,
) -> StepResult
    requires workable { IsWorkable machine.old.item }
    requires settled { may_leave (seen_copy machine.old) ≡ false }
    ensures works { ListSteps (P.is_free parts.now) replies (seen_copy machine.old) (seen_copy machine.new)
        result dirty.old dirty.new
        (T.contents tree.old) (T.contents tree.new) (T.fault_count tree.old) (T.fault_count tree.new) }
    ensures workable { IsWorkable machine.new.item }
{
    if brings_made(machine) {
        bring_made(machine, alloc, tree, parts, replies, dirty)
    } else if is_done(machine) {
        finish(machine, alloc, tree, parts, replies)
    } else if machine.is_dirty() {
        work_in_dirty(machine, alloc, tree, parts, replies, dirty)
    } else {
        work_in_clean(machine, alloc, tree, parts, replies, dirty)
    }
}

/// The folder around the one that was made leaves the list with its sync.
fn bring_made<T: Tree, P: PartTest>(
    machine: &mut TreeCopy,
    alloc: Global,
    tree: &mut T,
    parts: &P,
    replies: Replies,
    dirty: &mut Dirty,
) -> StepResult
    requires workable { IsWorkable machine.old.item }
    requires settled { may_leave (seen_copy machine.old) ≡ false }
    requires brings { brings (seen_copy machine.old) ≡ true }
    ensures works { ListSteps (P.is_free parts.now) replies (seen_copy machine.old) (seen_copy machine.new)
        result dirty.old dirty.new
        (T.contents tree.old) (T.contents tree.new) (T.fault_count tree.old) (T.fault_count tree.new) }
    ensures workable { IsWorkable machine.new.item }
{
    let stepped = machine.step(alloc, tree, parts, replies);
    let synced = !machine.stack.is_around_dirty();
    dirty.remove_if(synced, machine.stack.target_around());
    stepped
}

/// Nothing is left, and nothing is owed, so no folder joins the list.
fn finish<T: Tree, P: PartTest>(
    machine: &mut TreeCopy,
    alloc: Global,
    tree: &mut T,
    parts: &P,
    replies: Replies,
) -> StepResult
    requires workable { IsWorkable machine.old.item }
    requires settled { may_leave (seen_copy machine.old) ≡ false }
    requires inner { brings (seen_copy machine.old) ≡ false }
    requires ended { has_ended (seen_copy machine.old) ≡ true }
    ensures works { (dirty : List Route) → ListSteps (P.is_free parts.now) replies (seen_copy machine.old)
        (seen_copy machine.new) result dirty dirty
        (T.contents tree.old) (T.contents tree.new) (T.fault_count tree.old) (T.fault_count tree.new) }
    ensures workable { IsWorkable machine.new.item }
{
    machine.step(alloc, tree, parts, replies)
}

/// The folder that is worked, which is dirty, leaves the list with its sync.
fn work_in_dirty<T: Tree, P: PartTest>(
    machine: &mut TreeCopy,
    alloc: Global,
    tree: &mut T,
    parts: &P,
    replies: Replies,
    dirty: &mut Dirty,
) -> StepResult
    requires workable { IsWorkable machine.old.item }
    requires settled { may_leave (seen_copy machine.old) ≡ false }
    requires inner { brings (seen_copy machine.old) ≡ false }
    requires marked { is_dirty machine.old.stack.levels.inner.copy.names ≡ true }
    ensures works { ListSteps (P.is_free parts.now) replies (seen_copy machine.old) (seen_copy machine.new)
        result dirty.old dirty.new
        (T.contents tree.old) (T.contents tree.new) (T.fault_count tree.old) (T.fault_count tree.new) }
    ensures workable { IsWorkable machine.new.item }
{
    let stepped = machine.step(alloc, tree, parts, replies);
    let synced = !is_left_dirty(machine, &stepped.did);
    dirty.remove_if(synced, machine.folder());
    stepped
}

/// The folder that is worked, which is clean, joins the list, and stays there only where it was changed.
fn work_in_clean<T: Tree, P: PartTest>(
    machine: &mut TreeCopy,
    alloc: Global,
    tree: &mut T,
    parts: &P,
    replies: Replies,
    dirty: &mut Dirty,
) -> StepResult
    requires workable { IsWorkable machine.old.item }
    requires settled { may_leave (seen_copy machine.old) ≡ false }
    requires inner { brings (seen_copy machine.old) ≡ false }
    requires left { has_ended (seen_copy machine.old) ≡ false }
    requires clean { is_dirty machine.old.stack.levels.inner.copy.names ≡ false }
    ensures works { ListSteps (P.is_free parts.now) replies (seen_copy machine.old) (seen_copy machine.new)
        result dirty.old dirty.new
        (T.contents tree.old) (T.contents tree.new) (T.fault_count tree.old) (T.fault_count tree.new) }
    ensures workable { IsWorkable machine.new.item }
{
    let Ok(joined) = dirty.join(alloc, machine.folder()) else {
        return without_memory(is_at_barrier(machine));
    };
    let stepped = machine.step(alloc, tree, parts, replies);
    let changed = is_left_dirty(machine, &stepped.did);
    dirty.drop_last_if(but_not(joined, changed));
    stepped
}

/// There is no memory for the folder, and nothing was done.
fn without_memory(barrier: bool) -> StepResult
    ensures { result ≡ record { did = Did.Troubled (out_of_memory_at barrier); calls = 0 } }
{
    StepResult {
        did: Did::Troubled(out_of_memory(barrier)),
        calls: 0,
    }
}
