//! What changing calls come to: how many were made, or the trouble that stopped them.
ghost use Rattle.std.specs.Prelude.{◌≡◌, ◌≤◌};
ghost use Rattle.job_reports.specs.Stops.{IsMissingOrTrouble, IsReadingTrouble, IsTroubleWithPath};
ghost use Rattle.job_reports.specs.Stops.{after_calls_of, calls_made_for, calls_of, made_or_stopped_of};
ghost use Rattle.job_reports.specs.Stops.{out_of_memory_at, refusal_in as refused_with, stopped_before_of};

use crate::report::{Cause, Trouble};
use mc_text::Path;
use std::alloc::Global;
use tree_trait::TreeError;

/// A trouble, and how many changing calls were made until then.
#[derive(Debug, Drop)]
pub struct Stop {
    pub trouble: Trouble,
    pub calls: u64,
}

/// What the answer of a call comes to. One that found no memory was not made.
pub fn made_or_stopped(
    answer: Result<(), TreeError>,
    path: Path,
    barrier: bool,
) -> Result<u64, Stop>
    ensures { result ≡ made_or_stopped_of answer path barrier }
{
    match answer {
        Ok(()) => Ok(1),
        Err(TreeError::Memory) => Err(stopped_before(out_of_memory(barrier))),
        Err(error) => Err(Stop {
            trouble: Trouble {
                cause: Cause::Tree(error),
                path: Some(path),
                barrier,
            },
            calls: 1,
        }),
    }
}

/// What calls come to before which so many were made.
pub fn after_calls(calls: u64, answer: Result<u64, Stop>) -> Result<u64, Stop>
    requires few { calls ≤ 3 }
    requires few_more { calls_of answer ≤ 3 }
    ensures { result ≡ after_calls_of calls answer }
{
    match answer {
        Ok(more) => Ok(calls + more),
        Err(stop) => Err(Stop {
            trouble: stop.trouble,
            calls: calls + stop.calls,
        }),
    }
}

/// A trouble before any call was made.
pub fn stopped_before(trouble: Trouble) -> Stop
    ensures { result ≡ stopped_before_of trouble }
{
    Stop { trouble, calls: 0 }
}

/// The trouble of a job that is out of memory.
pub fn out_of_memory(barrier: bool) -> Trouble
    ensures { result ≡ out_of_memory_at barrier }
{
    Trouble {
        cause: Cause::Memory,
        path: None,
        barrier,
    }
}

/// A trouble away from a barrier with this cause, which names a path, or out of memory for the path's copy.
pub fn trouble_with_path(alloc: Global, cause: Cause, path: &Path) -> Trouble
    ensures { IsTroubleWithPath cause path.now result }
{
    match path.copy(alloc) {
        Ok(path) => Trouble {
            cause,
            path: Some(path),
            barrier: false,
        },
        Err(_) => out_of_memory(false),
    }
}

/// The trouble of a reading call that was refused.
pub fn reading_trouble(alloc: Global, error: TreeError, path: &Path) -> Trouble
    ensures { IsReadingTrouble error path.now result }
{
    match error {
        TreeError::Memory => out_of_memory(false),
        error => trouble_with_path(alloc, Cause::Tree(error), path),
    }
}

/// Whether a look was refused because nothing is there. Another refusal is a trouble.
pub fn missing_or_trouble(alloc: Global, error: TreeError, path: &Path) -> Result<(), Trouble>
    ensures { IsMissingOrTrouble error path.now result }
{
    match error {
        TreeError::Missing => Ok(()),
        error => Err(reading_trouble(alloc, error, path)),
    }
}

/// How many calls were made for an answer: none where there was no memory.
pub fn calls_made(answer: Result<(), TreeError>) -> u64
    ensures { result ≡ calls_made_for answer }
{
    match answer {
        Err(TreeError::Memory) => 0,
        Ok(()) | Err(_) => 1,
    }
}

/// The refusal that an answer is.
pub fn refusal_in(answer: Result<(), TreeError>) -> Option<TreeError>
    ensures { result ≡ refused_with answer }
{
    match answer {
        Ok(()) => None,
        Err(error) => Some(error),
    }
}
