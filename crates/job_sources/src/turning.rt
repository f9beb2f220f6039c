//! How the live job goes on after a step: as it stands, with its next source, or not.
ghost use Rattle.std.specs.Prelude.{◌≡◌, ◌⊎◌, [], None, OnErr, OnOk, Some, if◌then◌else◌, true};
ghost use Rattle.job_reports.specs.Jobs.{is_workable};
ghost use Rattle.job_reports.specs.Reports.{ends};
ghost use Rattle.session_entries.specs.SourcesLeft.{left_by};
ghost use Rattle.job_sources.specs.Turning.{GoesOn, MayFollow, Reports, RunsShort, Turns, finishes, merges};

use crate::later::Later;
use copy_move::Run;
use job_reports::{Did, Ending, Job, StepResult, is_end};
use mc_text::{NoMemory, Path};
use session_entries::Event;
use std::alloc::Global;

/// What is written down of a step, how many changing calls it made, and the job as it goes on.
#[derive(Debug, Drop)]
pub struct Stepped {
    pub what: Event,
    pub calls: u64,
    pub job: Option<Run>,
}

/// The job after a step. One that has finished a source goes on with the next one, where one is left.
pub fn go_on(alloc: Global, job: Run, made: StepResult, later: &mut Later) -> Stepped
    requires follows { MayFollow made.did }
    ensures goes { GoesOn job made.did made.calls later.old result later.new }
{
    let StepResult { did, calls } = made;
    if !is_finish(&did) {
        return reported(alloc, job, did, calls, later);
    }
    match later.take_next(alloc) {
        Err(_e) => run_short(job, later),
        Ok(None) => reported(alloc, job, did, calls, later),
        Ok(Some(source)) => turn(alloc, job, source, later),
    }
}

/// A step as its report tells it. Where a folder is merged, and there is no memory to keep what
/// lies in it, the job ends.
fn reported(alloc: Global, job: Run, did: Did, calls: u64, later: &mut Later) -> Stepped
    requires { MayFollow did }
    ensures { Reports job did calls later.old result later.new
        ⊎ ((merges did ≡ true) × (later.new ≡ []) × RunsShort job result) }
{
    match leave_by(alloc, &did, later) {
        Err(_e) => run_short(job, later),
        Ok(()) => told(job, did, calls),
    }
}

/// The step as it is written down.
fn told(job: Run, did: Did, calls: u64) -> Stepped
    ensures told { result.what ≡ Event.Step job.id did }
    ensures counted { result.calls ≡ calls }
    ensures stands { result.job ≡ (if ends did then None else Some job) }
{
    let id = job.id();
    let ended = is_end(&did);
    Stepped {
        what: Event::Step { job: id, did },
        calls,
        job: unless_ended(job, ended),
    }
}

/// The sources that are left once a step has reported this: none after an end, and what lies in a folder
/// that is merged before all others.
fn leave_by(alloc: Global, did: &Did, later: &mut Later) -> Result<(), NoMemory>
    requires { MayFollow did.now }
    ensures done { OnOk result (later.new ≡ left_by did.now later.old) }
    ensures refused { OnErr result (merges did.now ≡ true) }
{
    match did {
        Did::Merges(how, pair, names) => later.put_children(alloc, *how, pair, names),
        Did::Ended { .. } => {
            later.clear();
            Ok(())
        }
        _ => Ok(()),
    }
}

/// A job that has finished a source, as it goes on with the next one. Where there is no
/// memory for that it ends.
fn turn(alloc: Global, job: Run, source: Job, later: &mut Later) -> Stepped
    requires workable { is_workable source ≡ true }
    ensures goes { (Turns job source result × (later.new ≡ later.old))
        ⊎ (RunsShort job result × (later.new ≡ [])) }
{
    let id = job.id();
    match job.turn(alloc, &source) {
        Err(_e) => run_short(job, later),
        Ok(run) => Stepped {
            what: Event::Next {
                job: id,
                plan: source,
            },
            calls: 0,
            job: Some(run),
        },
    }
}

/// The end of a job for which memory ran out.
fn run_short(job: Run, later: &mut Later) -> Stepped
    ensures short { RunsShort job result }
    ensures none { later.new ≡ [] }
{
    later.clear();
    let id = job.id();
    Stepped {
        what: Event::Step {
            job: id,
            did: ended_without_memory(job.give_up()),
        },
        calls: 0,
        job: None,
    }
}

/// After an end there is no job.
fn unless_ended(job: Run, ended: bool) -> Option<Run>
    ensures { result ≡ (if ended then None else Some job) }
{
    if ended {
        return None;
    }
    Some(job)
}

/// The report that a job ends since memory ran out.
pub fn ended_without_memory(part: Option<Path>) -> Did
    ensures { result ≡ Did.Ended Ending.NoMemory part }
{
    Did::Ended {
        ending: Ending::NoMemory,
        part,
    }
}

/// Whether a report is that a source is finished.
fn is_finish(did: &Did) -> bool
    ensures { result ≡ finishes did.now }
{
    match did {
        Did::Ended {
            ending: Ending::Finished,
            ..
        } => true,
        _ => false,
    }
}
