//! What a session writes down of itself: an entry for each key, each look, the steps of a search up to a
//! draw, each job begun, each order to one and each step of one.
use crate::refusal::Refusals;
use job_reports::{Answer, Did, Job};
use key_screen::Key;

/// What a job was ordered.
#[derive(Clone, Copy, Debug, Drop, PartialEq, Eq)]
pub enum JobOrder {
    Answered(Answer),
}

/// What happened.
#[derive(Debug, Drop)]
pub enum Event {
    /// A key was worked at this second of the clock. A lost one was not: there was no memory for it.
    Key {
        key: Key,
        now: u64,
        refusals: Refusals,
        lost: bool,
    },
    /// The panels took up what a job did, and were drawn.
    Look {
        refusals: Refusals,
    },
    /// Steps of a search were made, and the screen was drawn.
    Sought,
    Began {
        job: u32,
        plan: Job,
        background: bool,
    },
    Order {
        job: u32,
        order: JobOrder,
    },
    Step {
        job: u32,
        did: Did,
    },
    /// What the job was to do with one of its sources is done, or was passed over, and it goes on with the
    /// next one, of which this is the plan.
    Next {
        job: u32,
        plan: Job,
    },
    /// No more keys are taken, and each job that waits for an answer is aborted.
    Closed,
}

/// An entry of the history: who made it (0 is the main thread), how many changing calls the session
/// had made at its end, how often the tree had failed then, and how many bytes the draws had that
/// had ended with its draw.
#[derive(Debug, Drop)]
pub struct Entry {
    pub seat: u32,
    pub calls: u64,
    pub faults: u64,
    pub shown: u128,
    pub what: Event,
}
