//! What may be answered to a question, to a trouble and at a barrier, and what the job does then.
ghost use Rattle.std.specs.Prelude.{◌≡◌};
ghost use Rattle.job_answers.specs.Answers.{answer_result, to_barrier, to_question, to_trouble, waiting_of};

use job_reports::{Answer, AnswerError, Cause, Trouble};

/// What a job waits with.
#[derive(Clone, Copy, Debug, Drop, PartialEq, Eq)]
pub enum Waiting {
    /// Something stands at the target.
    Question,
    /// A trouble that can be skipped, with this cause.
    Trouble(Cause),
    /// A trouble at a barrier, where nothing can be skipped.
    Barrier,
}

/// What a job does when its answer was taken.
#[derive(Clone, Copy, Debug, Drop, PartialEq, Eq)]
pub enum Then {
    /// The item's question is decided.
    Decides,
    Retries,
    Skips,
    /// It makes its last steps.
    Ends,
}

/// What a job in trouble waits with.
pub fn waiting_in(trouble: &Trouble) -> Waiting
    ensures { result ≡ waiting_of trouble.now }
{
    if trouble.barrier {
        return Waiting::Barrier;
    }
    Waiting::Trouble(trouble.cause)
}

/// What a job does after this answer. `NotAsked` where it doesn't wait, `WrongAnswer` where
/// the answer is none to that.
pub fn then_after(waiting: Option<Waiting>, answer: Answer) -> Result<Then, AnswerError>
    ensures { result ≡ answer_result waiting answer }
{
    match waiting {
        None => Err(AnswerError::NotAsked),
        Some(Waiting::Question) => after_question(answer),
        Some(Waiting::Trouble(_)) => after_trouble(answer),
        Some(Waiting::Barrier) => at_barrier(answer),
    }
}

fn after_question(answer: Answer) -> Result<Then, AnswerError>
    ensures { result ≡ to_question answer }
{
    match answer {
        Answer::Yes | Answer::No => Ok(Then::Decides),
        Answer::All | Answer::Update | Answer::Nothing | Answer::SizeDiffers => Ok(Then::Decides),
        Answer::Abort => Ok(Then::Ends),
        Answer::Retry | Answer::Skip | Answer::SkipAll => Err(AnswerError::WrongAnswer),
    }
}

fn after_trouble(answer: Answer) -> Result<Then, AnswerError>
    ensures { result ≡ to_trouble answer }
{
    match answer {
        Answer::Retry => Ok(Then::Retries),
        Answer::Skip | Answer::SkipAll => Ok(Then::Skips),
        Answer::Abort => Ok(Then::Ends),
        Answer::Yes | Answer::No => Err(AnswerError::WrongAnswer),
        Answer::All | Answer::Update | Answer::Nothing | Answer::SizeDiffers => {
            Err(AnswerError::WrongAnswer)
        }
    }
}

fn at_barrier(answer: Answer) -> Result<Then, AnswerError>
    ensures { result ≡ to_barrier answer }
{
    match answer {
        Answer::Retry => Ok(Then::Retries),
        Answer::Abort => Ok(Then::Ends),
        Answer::Skip | Answer::SkipAll => Err(AnswerError::WrongAnswer),
        Answer::Yes | Answer::No => Err(AnswerError::WrongAnswer),
        Answer::All | Answer::Update | Answer::Nothing | Answer::SizeDiffers => {
            Err(AnswerError::WrongAnswer)
        }
    }
}
