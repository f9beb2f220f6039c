//! What was answered to the questions and the troubles of a job.
use job_answers::{Decision, Replies, Then, Waiting, then_after};
use job_reports::{Answer, AnswerError, Cause, Question, Trouble};

/// What was answered in a job so far, and still holds.
#[derive(Clone, Copy, Debug, Drop)]
pub struct Standing {
    replies: Replies,
}

impl Standing {
    /// Nothing was answered.
    pub fn new() -> Standing {
        Standing {
            replies: Replies::new(),
        }
    }

    /// Whether the item replaces what stands at its target, or that is to be asked.
    pub fn decide(&self, question: &Question) -> Decision {
        self.replies.decide(question)
    }

    /// Whether a trouble is skipped without a question. At a barrier nothing is skipped.
    pub fn passes_over(&self, trouble: &Trouble) -> bool {
        self.replies.skips().passes_over(trouble)
    }

    /// Takes an answer, and says what the job does then. An answer that isn't taken changes
    /// nothing. It takes no memory.
    pub fn answer(
        &mut self,
        waiting: Option<Waiting>,
        answer: Answer,
    ) -> Result<Then, AnswerError> {
        match waiting {
            Some(Waiting::Question) => self.replies.note(answer),
            Some(Waiting::Trouble(cause)) => self.note_skip(cause, answer),
            Some(Waiting::Barrier) | None => {}
        }
        then_after(waiting, answer)
    }

    /// The next item is at hand. An answer for the one before holds no more.
    pub fn next_item(&mut self) {
        self.replies = self.replies.for_next();
    }

    /// Keeps what is answered to a trouble with this cause.
    fn note_skip(&mut self, cause: Cause, answer: Answer) {
        match answer {
            Answer::SkipAll => self.replies.skip_all(cause),
            Answer::Retry | Answer::Skip | Answer::Abort => {}
            Answer::Yes | Answer::No => {}
            Answer::All | Answer::Update | Answer::Nothing | Answer::SizeDiffers => {}
        }
    }
}
