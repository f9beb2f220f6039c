//! Reports of steps with and without a call.
ghost use Rattle.std.specs.Prelude.{◌≡◌, Err, None};
ghost use Rattle.job_reports.specs.Stops.{calls_made_for, refusal_in as refused_with, trouble_at};

use job_reports::{
    Cause, Did, Ending, LastStepResult, StepResult, Trouble, calls_made, out_of_memory, refusal_in,
};
use mc_text::Path;
use tree_trait::TreeError;

pub fn without_call(did: Did) -> StepResult
    ensures { result ≡ record { did = did; calls = 0 } }
{
    StepResult { did, calls: 0 }
}

pub fn with_call(did: Did) -> StepResult
    ensures { result ≡ record { did = did; calls = 1 } }
{
    StepResult { did, calls: 1 }
}

pub fn ended(ending: Ending) -> Did
    ensures { result ≡ Did.Ended ending None }
{
    Did::Ended { ending, part: None }
}

/// The report of a refused call. One that found no memory was not made.
pub fn refused(error: TreeError, path: Path, barrier: bool) -> StepResult
    ensures did { result.did ≡ Did.Troubled (trouble_at error path barrier) }
    ensures calls { result.calls ≡ calls_made_for (Err error) }
{
    match error {
        TreeError::Memory => without_call(Did::Troubled(out_of_memory(barrier))),
        error => with_call(Did::Troubled(Trouble {
            cause: Cause::Tree(error),
            path: Some(path),
            barrier,
        })),
    }
}

/// A sync that was tried, whatever it answered. One that found no memory was not made.
pub fn tried(answer: Result<(), TreeError>) -> LastStepResult
    ensures did { result.did ≡ Did.Barrier }
    ensures calls { result.calls ≡ calls_made_for answer }
    ensures left { result.left ≡ refused_with answer }
{
    LastStepResult {
        did: Did::Barrier,
        calls: calls_made(answer),
        left: refusal_in(answer),
    }
}

/// A last step that made no call.
pub fn last_report(did: Did, left: Option<TreeError>) -> LastStepResult
    ensures { result ≡ record { did = did; calls = 0; left = left } }
{
    LastStepResult {
        did,
        calls: 0,
        left,
    }
}
