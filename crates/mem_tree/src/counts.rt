//! How the calls of a tree in memory are counted, and which of them fail.
ghost use Rattle.std.specs.Prelude.{◌≡◌};
ghost use Rattle.tree_trait.specs.Answers.{HasCause, count_after, one_more};
ghost use Rattle.mem_tree.specs.Counted.{is_due, failed_if};

use tree_trait::TreeError;

/// Counts a call, and says whether it is named to fail.
pub(crate) fn count(fails: &[u64], called: &mut u64) -> bool
    ensures due { result ≡ is_due fails.now called.old }
    ensures called { called.new ≡ one_more called.old }
{
    *called = called.saturating_add(1);
    let number = *called;
    fails.iter().any(|n| *n == number)
}

/// The answer of a reading call that may be named to fail.
pub(crate) fn fail_if<A: Drop>(due: bool, answer: Result<A, TreeError>) -> Result<A, TreeError>
    ensures { result ≡ failed_if due answer }
{
    match answer {
        Ok(value) => {
            if due {
                Err(TreeError::Fault)
            } else {
                Ok(value)
            }
        }
        Err(e) => Err(e),
    }
}

/// Counts the answer, if it is a fault.
pub(crate) fn count_fault<A>(answer: &Result<A, TreeError>, faults: &mut u64)
    ensures cause { HasCause TreeError.Fault faults.old faults.new answer.now }
    ensures count { faults.new ≡ count_after faults.old answer.now }
{
    if let Err(TreeError::Fault) = answer {
        *faults = faults.saturating_add(1);
    }
}
