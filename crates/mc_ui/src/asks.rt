//! What a key asks of the desk, and what it is told of that.
use job_reports::{Answer, Job};
use session_entries::{Refusal, Refusals};

/// What a key asks.
#[derive(Debug, Drop)]
pub enum Ask {
    Nothing,
    /// A job is to be begun.
    Begin { plan: Job, background: bool },
    /// The live job is answered.
    Answer(Answer),
    End,
}

/// What a key asks, and what was refused to it.
#[derive(Debug, Drop)]
pub struct KeyAct {
    pub ask: Ask,
    pub refusals: Refusals,
}

/// What became of a job that a key asked for, or of its answer.
#[derive(Debug, Drop)]
pub enum Told {
    /// It asked for neither.
    Nothing,
    /// The job was begun.
    Begun,
    /// The job was answered.
    Answered,
    Refused(Refusal),
    /// There was no memory.
    Lost,
}
