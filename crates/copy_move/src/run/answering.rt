//! What an answer to a question or a trouble, an order and the close of the session make of a job.
ghost use Rattle.std.specs.Prelude.{◌≡◌, Err, Ok, OnErr, OnOk, Some, false};
ghost use Rattle.job_answers.specs.Answers.{answer_result as by_table};
ghost use Rattle.copy_move.specs.Jobs.{MayAnswer, answered_job, closed_job};
ghost use Rattle.copy_move.specs.Jobs.{ended_course, skipping_by, waiting_on, waits_on};

use super::{Course, Halt, Run};
use job_answers::{Then, Waiting, then_after};
use job_reports::{Answer, AnswerError, Cause, Ending};

impl Run {
    /// Answers the question or the trouble, by the table of what may be answered. `NotAsked` where the job
    /// waits for none, `WrongAnswer` where it is none to what the job waits with, as a skip at a barrier;
    /// the job is as it was then.
    pub fn answer(&mut self, answer: Answer) -> Result<(), AnswerError>
        ensures taken { OnOk result (self.new ≡ answered_job answer self.old) }
        ensures fits { OnOk result (MayAnswer self.old answer) }
        ensures not_asked { result ≡ Err AnswerError.NotAsked → waits_on self.old.course ≡ false }
        ensures wrong { result ≡ Err AnswerError.WrongAnswer
            → by_table (waiting_on self.old.course) answer ≡ Err AnswerError.WrongAnswer }
        ensures same { OnErr result (self.new ≡ self.old) }
    {
        let next = then_after(self.waiting(), answer)?;
        self.follow(next, answer);
        Ok(())
    }

    /// The job is to make its last steps, and to end as aborted.
    pub fn abort(&mut self)
        ensures { self.new ≡ record self.old { course = ended_course Ending.Aborted self.old.course } }
    {
        self.end_as(Ending::Aborted);
    }

    /// The job is to make its last steps, and to end as killed.
    pub fn kill(&mut self)
        ensures { self.new ≡ record self.old { course = ended_course Ending.Killed self.old.course } }
    {
        self.end_as(Ending::Killed);
    }

    /// The session closes: a job that waits for an answer is aborted.
    pub fn close(&mut self)
        ensures { self.new ≡ closed_job self.old }
    {
        if self.waits() {
            self.end_as(Ending::Aborted);
        }
    }

    /// What the job waits with.
    fn waiting(&self) -> Option<Waiting>
        ensures { result ≡ waiting_on self.now.course }
    {
        match self.course {
            Course::Asking => Some(Waiting::Question),
            Course::InTrouble(halt) => Some(halt.waiting()),
            Course::OwedSyncFailed(_) => Some(Waiting::Barrier),
            Course::GoesOn | Course::Skips(_) | Course::Ends(_) => None,
        }
    }

    /// Does what an answer that may be given comes to.
    fn follow(&mut self, next: Then, answer: Answer)
        requires table { by_table (waiting_on self.old.course) answer ≡ Ok next }
        ensures { self.new ≡ answered_job answer self.old }
    {
        match next {
            Then::Decides => self.note_reply(answer),
            Then::Retries => self.take_anew(answer),
            Then::Skips => self.pass_over(answer),
            Then::Ends => self.end_by(answer),
        }
    }

    /// The question is decided, for this item or for all.
    fn note_reply(&mut self, answer: Answer)
        requires table { by_table (waiting_on self.old.course) answer ≡ Ok Then.Decides }
        ensures { self.new ≡ answered_job answer self.old }
    {
        self.replies.note(answer);
        self.course = Course::GoesOn;
    }

    /// What was refused is taken up once more.
    fn take_anew(&mut self, answer: Answer)
        requires table { by_table (waiting_on self.old.course) answer ≡ Ok Then.Retries }
        ensures { self.new ≡ answered_job answer self.old }
    {
        self.work.retry();
        self.course = Course::GoesOn;
    }

    /// What stands next is to be left as it is, and with `SkipAll` all that meets a
    /// trouble of the same kind later.
    fn pass_over(&mut self, answer: Answer)
        requires table { by_table (waiting_on self.old.course) answer ≡ Ok Then.Skips }
        ensures { self.new ≡ answered_job answer self.old }
    {
        let Course::InTrouble(halt) = self.course else {
            unreachable!()
        };
        self.note_skip(halt.cause, answer);
        self.course = Course::Skips(halt.cause);
    }

    /// After `SkipAll` troubles of this kind are passed over without a question.
    fn note_skip(&mut self, cause: Cause, answer: Answer)
        ensures { self.new ≡ record self.old { replies = skipping_by answer cause self.old.replies } }
    {
        match answer {
            Answer::SkipAll => self.replies.skip_all(cause),
            Answer::Skip | Answer::Retry | Answer::Abort => {}
            Answer::Yes | Answer::No => {}
            Answer::All | Answer::Update | Answer::Nothing | Answer::SizeDiffers => {}
        }
    }

    /// It makes its last steps.
    fn end_by(&mut self, answer: Answer)
        requires table { by_table (waiting_on self.old.course) answer ≡ Ok Then.Ends }
        ensures { self.new ≡ answered_job answer self.old }
    {
        self.course = Course::Ends(Ending::Aborted);
    }

    fn end_as(&mut self, ending: Ending)
        ensures { self.new ≡ record self.old { course = ended_course ending self.old.course } }
    {
        self.course = match self.course {
            Course::Ends(first) => Course::Ends(first),
            Course::GoesOn | Course::Asking | Course::InTrouble(_) => Course::Ends(ending),
            Course::OwedSyncFailed(_) | Course::Skips(_) => Course::Ends(ending),
        };
    }
}

impl Halt {
    /// What a job waits with that stands so.
    fn waiting(self) -> Waiting
        ensures { Some result ≡ waiting_on (Course.InTrouble self) }
    {
        if self.barrier {
            return Waiting::Barrier;
        }
        Waiting::Trouble(self.cause)
    }
}
