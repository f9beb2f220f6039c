//! Folders that owe nothing are left before a step, so that the folder that is worked then is the
//! one that the step changes.
ghost use Rattle.std.specs.Prelude.{◌≡◌, false, true};
ghost use Rattle.copy_tree.specs.Standing.{seen_copy};
ghost use Rattle.copy_tree.specs.TreeCopySteps.{IsWorkable, Leaves};
ghost use Rattle.copy_job.specs.Leaving.{LeavesSettled, is_done as has_ended};
ghost use Rattle.copy_job.specs.Leaving.{is_done_at as has_ended_at, may_leave as leaves_next};
ghost use Rattle.copy_job.specs.Leaving.{may_leave_at as leaves_next_at, owes_at_end as owes_then};

use copy_folders::{Stack, Stage};
use copy_tree::{ItemAtWork, TreeCopy};

/// Leaves the folders that owe nothing, but for the outermost.
pub(crate) fn leave_settled(machine: &mut TreeCopy)
    requires workable { IsWorkable machine.old.item }
    ensures leaves { LeavesSettled (seen_copy machine.old) (seen_copy machine.new) }
    ensures settled { leaves_next (seen_copy machine.new) ≡ false }
    ensures workable { IsWorkable machine.new.item }
{
    while may_leave(machine) {
        leave(machine);
    }
}

/// Whether the folder that is worked is done with, and isn't the outermost.
fn may_leave(machine: &TreeCopy) -> bool
    ensures { result ≡ leaves_next (seen_copy machine.now) }
{
    match &machine.item {
        ItemAtWork::Next => may_leave_at(&machine.stack),
        ItemAtWork::File(_) => false,
        ItemAtWork::Link(_) => false,
        ItemAtWork::Stays(_) => false,
    }
}

fn may_leave_at(stack: &Stack) -> bool
    ensures { result ≡ leaves_next_at stack.now.levels }
{
    if stack.is_around_dirty() || stack.is_outermost() {
        return false;
    }
    is_done_at(stack)
}

/// Whether no name is left in the folder that is worked, and it owes nothing.
pub(crate) fn is_done(machine: &TreeCopy) -> bool
    ensures { result ≡ has_ended (seen_copy machine.now) }
{
    match &machine.item {
        ItemAtWork::Next => is_done_at(&machine.stack),
        ItemAtWork::File(_) => false,
        ItemAtWork::Link(_) => false,
        ItemAtWork::Stays(_) => false,
    }
}

fn is_done_at(stack: &Stack) -> bool
    ensures { result ≡ has_ended_at stack.now.levels }
{
    match stack.next_name() {
        Some(_) => false,
        None => !owes_at_end(stack.stage(), stack.is_dirty()),
    }
}

/// Whether a folder that is so far, and dirty or not, owes something once its children are decided.
fn owes_at_end(stage: Stage, dirty: bool) -> bool
    ensures { result ≡ owes_then stage dirty }
{
    match stage {
        Stage::Make { .. } => true,
        Stage::Fill { owed: Some(_) } => true,
        Stage::Fill { owed: None } => dirty,
        Stage::Close { owed: Some(_) } => true,
        Stage::Close { owed: None } => dirty,
        Stage::Done => false,
    }
}

/// The folder around is worked again.
fn leave(machine: &mut TreeCopy)
    requires may { leaves_next (seen_copy machine.old) ≡ true }
    ensures leaves { Leaves (seen_copy machine.old) (seen_copy machine.new) }
    ensures free { machine.new.item ≡ machine.old.item }
{
    machine.stack.close();
    let _left = machine.stack.leave();
}
