//! Troubles that are passed over without a question.
ghost use Rattle.copy_tree.specs.Standing.{seen_copy};
ghost use Rattle.copy_tree.specs.TreeCopySteps.{IsWorkable};
ghost use Rattle.copy_job.specs.Passing.{OrPassedOver};

use copy_tree::TreeCopy;
use job_answers::Skips;
use job_reports::StepResult;
use std::alloc::Global;

/// What a step has worked, or what it is in trouble with is passed over, where troubles
/// of that kind are skipped.
pub(crate) fn or_passed_over(
    machine: &mut TreeCopy,
    alloc: Global,
    skips: Skips,
    worked: StepResult,
) -> StepResult
    requires workable { IsWorkable machine.old.item }
    ensures passes { OrPassedOver skips worked (seen_copy machine.old) (seen_copy machine.new) result }
    ensures workable { IsWorkable machine.new.item }
{
    match skips.passed_cause(&worked.did) {
        None => worked,
        Some(cause) => StepResult {
            did: machine.skip(alloc, cause),
            calls: worked.calls,
        },
    }
}
