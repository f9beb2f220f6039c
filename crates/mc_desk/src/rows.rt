//! The rows of the live jobs, as the screen sees them.
ghost use Rattle.std.specs.Prelude.{◌≡◌, ◌∷◌, [], IfOk};
ghost use Rattle.session_log.specs.Told.{waits_told};
ghost use Rattle.mc_desk.specs.LiveRows.{question_in, row_of as row_for, rows_of as rows_for};
ghost use Rattle.mc_desk.specs.LiveRows.{state_with, trouble_in, waits_in as told_in};

use copy_move::Run;
use job_reports::{JobRow, JobRows, JobState, Question, Trouble, Waits};
use mc_text::NoMemory;
use session_log::Log;
use std::alloc::Global;

/// The rows of the live jobs. There is at most one today.
pub fn rows_of(alloc: Global, job: &Option<Run>, log: &Log) -> Result<JobRows, NoMemory>
    ensures { IfOk result (λ rows. rows ≡ rows_for job.now (waits_told log.now.newest)) }
{
    match job {
        None => Ok(JobRows(Vec::new(alloc))),
        Some(run) => {
            let row = row_of(alloc, run, log)?;
            one_row(alloc, row)
        }
    }
}

fn one_row(alloc: Global, row: JobRow) -> Result<JobRows, NoMemory>
    ensures { IfOk result (λ rows. rows ≡ row ∷ []) }
{
    let mut rows = Vec::new(alloc);
    rows.push(row)?;
    Ok(JobRows(rows))
}

/// The row of a live job.
fn row_of(alloc: Global, run: &Run, log: &Log) -> Result<JobRow, NoMemory>
    ensures { IfOk result (λ row. row ≡ row_for run.now (waits_told log.now.newest)) }
{
    let waits = waits_in(alloc, run, log)?;
    let path = run.path().copy(alloc)?;
    let state = state_with(&waits);
    let RowFields { asked, trouble } = fields_of(waits);
    Ok(JobRow {
        job: run.id(),
        state,
        kind: run.kind(),
        path,
        background: false,
        asked,
        trouble,
    })
}

/// What a job waits with, as its newest report told it.
fn waits_in(alloc: Global, run: &Run, log: &Log) -> Result<Option<Waits>, NoMemory>
    ensures { IfOk result (λ waits. waits ≡ told_in run.now (waits_told log.now.newest)) }
{
    if !run.waits() {
        return Ok(None);
    }
    log.waits_told(alloc)
}

/// What a job is at that waits with this.
fn state_with(waits: &Option<Waits>) -> JobState
    ensures { result ≡ state_with waits.now }
{
    match waits {
        None => JobState::Ready,
        Some(Waits::Question(_)) => JobState::Asking,
        Some(Waits::Trouble(_)) => JobState::Troubled,
    }
}

/// What a job waits with, as the fields of its row have it.
struct RowFields {
    asked: Option<Question>,
    trouble: Option<Trouble>,
}

fn fields_of(waits: Option<Waits>) -> RowFields
    ensures asked { result.asked ≡ question_in waits }
    ensures trouble { result.trouble ≡ trouble_in waits }
{
    match waits {
        None => RowFields {
            asked: None,
            trouble: None,
        },
        Some(Waits::Question(question)) => RowFields {
            asked: Some(question),
            trouble: None,
        },
        Some(Waits::Trouble(trouble)) => RowFields {
            asked: None,
            trouble: Some(trouble),
        },
    }
}
