//! What a key comes to.
use job_reports::Waits;

/// What a key comes to in the list of jobs.
#[derive(Debug, Drop)]
pub enum JobsAct {
    /// The list is shown on.
    Stays,
    /// The box that tells of this question or trouble is to stand in place of the list.
    Opens(Waits),
    /// The list is shut.
    Leaves,
}
