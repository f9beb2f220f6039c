//! What a live job waits with.
ghost use Rattle.std.specs.Prelude.{◌≡◌, IfOk};
ghost use Rattle.job_reports.specs.Waits.{waits_of};

use crate::question::Question;
use crate::report::Trouble;
use crate::row::{JobRow, JobState};
use mc_text::NoMemory;
use std::alloc::Global;

/// What a live job waits with for an answer.
#[derive(Debug, Drop)]
pub enum Waits {
    Question(Question),
    Trouble(Trouble),
}

impl JobRow {
    /// What the job waits with, if it waits.
    pub fn waits(&self, alloc: Global) -> Result<Option<Waits>, NoMemory>
        ensures { IfOk result (λ waits. waits ≡ waits_of self.now) }
    {
        match (self.state, &self.asked, &self.trouble) {
            (JobState::Asking, Some(question), _) => {
                Ok(Some(Waits::Question(question.copy(alloc)?)))
            }
            (JobState::Troubled, _, Some(trouble)) => {
                Ok(Some(Waits::Trouble(trouble.copy(alloc)?)))
            }
            _ => Ok(None),
        }
    }
}
