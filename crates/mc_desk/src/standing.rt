//! What a session has come to: its live job, what is due, what was asked, and what was counted.
ghost use Rattle.std.specs.Prelude.{◌≡◌, true, false, None};
ghost use Rattle.std.specs.Option.{option_map};
ghost use Rattle.copy_move.specs.Jobs.{MayAnswer, answered_job, closed_job};
ghost use Rattle.mc_desk.specs.Tallies.{can_step, next_id as number_after};
ghost use Rattle.mc_desk.specs.Standings.{MayCarryOut, after_deed, after_look, after_start, awaited_look};
ghost use Rattle.mc_desk.specs.Standings.{awaited_by, closed_standing, event_of, fresh_standing, is_quit};

use crate::confirmed::Confirmed;
use crate::granting::Deed;
use crate::replies::DeskReply;
use copy_move::Run;
use job_reports::Answer;
use job_sources::Later;
use session_entries::{Event, JobOrder};
use std::alloc::Global;

/// What is to be looked at before the next key is taken.
#[derive(Clone, Copy, Debug, Drop, PartialEq, Eq)]
pub enum Due {
    Nothing,
    /// The opening frame.
    First,
    /// This job, once it isn't ready.
    Job(u32),
}

/// What a session has come to.
#[derive(Debug, Drop)]
pub struct Standing {
    pub job: Option<Run>,
    /// The sources that it is yet to take up.
    pub later: Later,
    pub last_id: u32,
    pub calls: u64,
    pub has_unseen_end: bool,
    pub due: Due,
    pub closed: bool,
    pub quit: bool,
    pub lost: bool,
}

impl Standing {
    /// Nothing happened yet, and the opening frame is due.
    pub fn new(alloc: Global) -> Standing
        ensures { result ≡ fresh_standing }
    {
        Standing {
            job: None,
            later: Later::new(alloc),
            last_id: 0,
            calls: 0,
            has_unseen_end: false,
            due: Due::First,
            closed: false,
            quit: false,
            lost: false,
        }
    }

    /// The number of the next job: there are 2^32 - 1, and none is given twice.
    pub fn next_id(&self) -> Option<u32>
        ensures { result ≡ number_after self.now.last_id }
    {
        self.last_id.checked_add(1)
    }

    /// Carries out what a key asked. The answer is what is written down of it directly after the key.
    pub fn carry_out(&mut self, deed: Deed) -> Option<Event>
        requires { MayCarryOut self.old.job deed }
        ensures done { self.new ≡ after_deed deed self.old }
        ensures told { result ≡ event_of deed self.old.job }
    {
        match deed {
            Deed::Nothing => None,
            Deed::Refuse => None,
            Deed::End => self.ask_end(),
            Deed::Begin(confirmed) => Some(self.begin(confirmed)),
            Deed::Answer(answer) => self.answer(answer),
        }
    }

    /// The end is asked for.
    fn ask_end(&mut self) -> Option<Event>
        ensures done { self.new ≡ record self.old { quit = true } }
        ensures told { result ≡ None }
    {
        self.quit = true;
        None
    }

    /// A job that was confirmed is live, and due.
    fn begin(&mut self, confirmed: Confirmed) -> Event
        ensures done { self.new ≡ after_start confirmed.run confirmed.later self.old }
        ensures told { result ≡ Event.Began confirmed.run.id confirmed.plan confirmed.background }
    {
        let Confirmed {
            plan,
            background,
            run,
            later,
        } = confirmed;
        let job = run.id();
        self.job = Some(run);
        self.later = later;
        self.last_id = job;
        self.due = Due::Job(job);
        Event::Began {
            job,
            plan,
            background,
        }
    }

    /// The live job is answered, and it is due.
    fn answer(&mut self, answer: Answer) -> Option<Event>
        requires may { MayCarryOut self.old.job (Deed.Answer answer) }
        ensures done { self.new ≡ after_deed (Deed.Answer answer) self.old }
        ensures told { result ≡ event_of (Deed.Answer answer) self.old.job }
    {
        let Some(mut run) = self.job.take() else {
            unreachable!()
        };
        let job = run.id();
        answer_run(&mut run, answer);
        self.job = Some(run);
        self.due = Due::Job(job);
        Some(Event::Order {
            job,
            order: JobOrder::Answered(answer),
        })
    }

    /// The reply to a key: whether the end was asked for, or what is due.
    pub fn reply(&self) -> DeskReply
        requires ended { self.now.quit ≡ true → awaited_look self.now.due ≡ None }
        ensures quit { is_quit result ≡ self.now.quit }
        ensures awaits { awaited_by result ≡ awaited_look self.now.due }
    {
        if self.quit {
            return DeskReply::Quit;
        }
        match self.due {
            Due::Nothing => DeskReply::Go,
            Due::First => DeskReply::Wait(0),
            Due::Job(job) => DeskReply::Wait(job),
        }
    }

    /// A look was taken: the job's end was seen, and only a job that can be stepped still is due.
    pub fn look_taken(&mut self)
        ensures { self.new ≡ record self.old {
          has_unseen_end = false;
          due = after_look (can_step self.old.job) self.old.due;
        } }
    {
        let due = due_after(self.due, can_step(&self.job));
        self.has_unseen_end = false;
        self.due = due;
    }

    /// No more keys are taken, and a job that waits for an answer is aborted.
    pub fn close(&mut self)
        ensures { self.new ≡ closed_standing self.old }
    {
        let job = closed(self.job.take());
        self.job = job;
        self.due = Due::Nothing;
        self.closed = true;
    }
}

/// Answers a job that may be answered so.
fn answer_run(run: &mut Run, answer: Answer)
    requires may { MayAnswer run.old answer }
    ensures { run.new ≡ answered_job answer run.old }
{
    let Ok(()) = run.answer(answer) else {
        unreachable!()
    };
}

/// What is due after a look: a job that can be stepped still is.
fn due_after(due: Due, can_step: bool) -> Due
    ensures { result ≡ after_look can_step due }
{
    if can_step { due } else { Due::Nothing }
}

/// Whether there is a job, and it waits for nothing.
pub fn can_step(job: &Option<Run>) -> bool
    ensures { result ≡ can_step job.now }
{
    match job {
        None => false,
        Some(job) => !job.waits(),
    }
}

/// The job of a session that closes.
pub fn closed(job: Option<Run>) -> Option<Run>
    ensures { result ≡ option_map closed_job job }
{
    match job {
        None => None,
        Some(mut job) => {
            job.close();
            Some(job)
        }
    }
}
