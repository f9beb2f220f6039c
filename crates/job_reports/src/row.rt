//! What is seen of a live job.
use crate::question::Question;
use crate::report::Trouble;
use mc_text::Path;
use std::marker::Model;

/// What a live job is at. `Stopped` comes with the table of jobs; no job is in it yet.
#[derive(Clone, Copy, Debug, Drop, PartialEq, Eq)]
pub enum JobState {
    /// It has a next step.
    Ready,
    /// It waits for the answer to a question.
    Asking,
    /// It waits for the answer to a trouble.
    Troubled,
    /// It waits until it is resumed.
    Stopped,
}

/// What a job does.
#[derive(Clone, Copy, Debug, Drop, PartialEq, Eq)]
pub enum JobKind {
    Copy,
    Move,
    Delete,
    MakeFolder,
    MakeLink,
    SetMode,
}

/// A live job, as it is seen: its number, what it is at, what it does, and the question or the trouble in
/// which it waits. A list of the jobs shows kind and path.
#[derive(Debug, Drop)]
pub struct JobRow {
    pub job: u32,
    pub state: JobState,
    pub kind: JobKind,
    /// Its source; of a thing that is made, that thing.
    pub path: Path,
    /// Whether it works in the background, which none does yet.
    pub background: bool,
    pub asked: Option<Question>,
    pub trouble: Option<Trouble>,
}

/// The live jobs, in the order of their starts.
#[derive(Debug, Drop)]
pub struct JobRows(pub Vec<JobRow>);

impl Model for JobRows {
    ghost use Rattle.std.specs.Prelude.{List};
    ghost use Rattle.job_reports.specs.declared.row.JobRow.{JobRow};

    ghost Value = { List JobRow };

    ghost view = { λ l. l.0.items };
}
