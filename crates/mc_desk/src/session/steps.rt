//! Steps of the job, and the end of a session.
ghost use Rattle.std.specs.Prelude.{◌≡◌, ◌<◌, ◌≤◌, true, None, IsSome, ◌||◌, reverse, if◌then◌else◌};
ghost use Rattle.std.specs.Option.{is_none};
ghost use Rattle.copy_move.specs.Told.{if_closed, IsReady};
ghost use Rattle.session_entries.specs.SourcesLeft.{AreInTurn};
ghost use Rattle.laws_sessions.specs.ToldJob.{live_job};
ghost use Rattle.laws_sessions.specs.Traces.{IsTracedTo};
ghost use Rattle.mc_desk.specs.Sessions.{EndsSession};
ghost use Rattle.mc_desk.specs.Tallies.{can_step};
ghost use Rattle.mc_desk.specs.KeysAndFaults.{faults_in, keys_in, has_lost};
ghost use Rattle.mc_desk.specs.Outputs.{Blames};
ghost use Rattle.mc_desk.specs.DeskDevices.{HasGiven, put_since, RanNothing};
ghost use Rattle.mc_desk.specs.Desks.{KeepsKeys, MovesDirty, idle_reply, rank_of};
ghost use Rattle.session_log.specs.Logs.{jobs_begun};

use super::Session;
use crate::claims::NoClaims;
use crate::replies::{Ended, StepReply};
use crate::standing::closed;
use crate::tag::Tag;
use copy_move::Run;
use job_sources::{Stepped, ended_without_memory, go_on};
use session_entries::{Entry, Event};
use session_log::plain_entry;
use std::alloc::Global;
use tree_trait::{Sink, Spawner, Tree};

impl<N: Tag, T: Tree, S: Sink, P: Spawner> Session<N, T, S, P> {
    /// Closes the session: no more keys are taken, and a job that waits for an answer is aborted. It takes
    /// no memory. A closed one stays as it is.
    pub fn close(&mut self)
        ensures closed { self.new.tally.closed ≡ true }
        ensures screen { self.new.screen ≡ self.old.screen }
        ensures keys { KeepsKeys self.old self.new }
        ensures dirty { self.new.dirty ≡ self.old.dirty }
        ensures out { self.new.out ≡ self.old.out }
        ensures quit { self.new.quit ≡ self.old.quit }
    {
        if self.standing.closed {
            return;
        }
        let closing = plain_entry(self.standing.calls, self.tree.faults(), Event::Closed);
        self.log.note(closing);
        self.standing.close();
    }

    /// Makes one step of the job, if it is ready: `Did` where an entry was added. Where a source is
    /// finished, the job goes on with the next one, and that is what the entry tells. Without memory for
    /// the entry no call of the tree is made, and the job ends by the entry for which room was kept.
    pub fn step(&mut self, alloc: Global, seat: u32) -> StepReply
        requires main { seat ≡ 0 }
        ensures screen { self.new.screen ≡ self.old.screen }
        ensures keys { KeepsKeys self.old self.new }
        ensures dirty { MovesDirty self.old.job self.new.newest self.old.dirty self.new.dirty }
        ensures same { (self.new.tally.closed ≡ self.old.tally.closed)
            × (self.new.tally.due ≡ self.old.tally.due) }
        ensures quit { self.new.quit ≡ self.old.quit }
        ensures reply { result
            ≡ (if can_step self.old.tally.job then StepReply.Did else idle_reply self.old.tally.closed) }
        ensures out { self.new.out ≡ self.old.out }
        ensures nearer { self.old.tally.closed ≡ true → IsSome self.old.job
            → rank_of self.new < rank_of self.old }
        ensures worked { IsReady self.old.job → rank_of self.new < rank_of self.old }
    {
        let Some(mut job) = self.standing.job.take() else {
            return idle(self.standing.closed);
        };
        if job.waits() {
            put_back(&mut self.standing.job, Some(job));
            return idle(self.standing.closed);
        }
        let id = job.id();
        if self.log.reserve(3).is_err() {
            self.log.note(Entry {
                seat,
                calls: self.standing.calls,
                faults: self.tree.faults(),
                shown: 0,
                what: Event::Step {
                    job: id,
                    did: ended_without_memory(job.give_up()),
                },
            });
            self.standing.later.clear();
            self.standing.has_unseen_end = true;
            return StepReply::Did;
        }
        let made = job.step(alloc, &mut self.tree, &NoClaims, &mut self.dirty);
        let Stepped { what, calls, job } = go_on(alloc, job, made, &mut self.standing.later);
        let calls = self.standing.calls.saturating_add(calls);
        let ended = has_ended(&job);
        self.log.note(Entry {
            seat,
            calls,
            faults: self.tree.faults(),
            shown: 0,
            what,
        });
        self.standing.calls = calls;
        self.standing.has_unseen_end = end_waits(ended, self.standing.has_unseen_end);
        let kept = unless_waiting(job, self.standing.closed);
        put_back(&mut self.standing.job, kept);
        StepReply::Did
    }

    /// Steps the job of a closed session to its end.
    fn work_off(&mut self, alloc: Global)
        requires closed { self.old.tally.closed ≡ true }
        ensures idle { self.new.job ≡ None }
        ensures keys { keys_in self.new.newest ≡ keys_in self.old.newest }
        ensures out { self.new.out ≡ self.old.out }
        ensures quit { self.new.quit ≡ self.old.quit }
    {
        while self.standing.job.is_some() {
            self.step(alloc, 0);
        }
    }

    /// Ends the session: it is closed, and its job stepped to the end.
    pub fn end(self, alloc: Global) -> Ended<T, S, P>
        ensures session { EndsSession N.start N.opening N.tree_faults (reverse result.history.entries)
            (T.contents result.tree)
            (record { bytes = put_since N.given (S.given result.screen); is_cut = self.out.put.is_cut })
            result.quit }
        ensures given { HasGiven N.given (put_since N.given (S.given result.screen)) (S.given result.screen) }
        ensures traced { IsTracedTo N.opening (T.contents result.tree) (reverse result.history.entries) }
        ensures idle { live_job (reverse result.history.entries) ≡ None }
        ensures turns { AreInTurn (reverse result.history.entries) }
        ensures counted { result.history.started ≡ jobs_begun result.history.entries }
        ensures keys { keys_in (reverse result.history.entries) ≡ keys_in self.newest }
        ensures lost { result.lost ≡ has_lost (reverse result.history.entries) }
        ensures quit { result.quit ≡ self.quit }
        ensures screen { Blames result.failed N.sink_faults (S.fault_count result.screen) }
        ensures faults { faults_in N.tree_faults (reverse result.history.entries)
            ≤ T.fault_count result.tree }
        ensures commands { RanNothing N.runs (P.runs result.spawner) N.spawner_faults
            (P.fault_count result.spawner) }
    {
        let mut session = self;
        session.close();
        session.work_off(alloc);
        let Session {
            tree,
            terminal,
            spawner,
            keys,
            ui,
            standing,
            dirty,
            log,
            taken: _,
            of: _,
        } = session;
        let (screen, failed) = terminal.into_parts();
        let quit = standing.quit;
        let lost = standing.lost;
        // Calls, since the prover looks through what a function lets go of itself.
        drop(keys);
        drop(ui);
        drop(standing);
        drop(dirty);
        Ended {
            tree,
            screen,
            spawner,
            history: log.into_history(),
            quit,
            failed,
            lost,
        }
    }
}

/// Puts a job where none stands. It is a function of its own, since what an assignment lets go of is looked
/// at on each way out, and a job may hold much.
fn put_back(place: &mut Option<Run>, job: Option<Run>)
    ensures { place.new ≡ job }
{
    *place = job;
}

/// The reply where no job can be stepped.
fn idle(is_closed: bool) -> StepReply
    ensures { result ≡ idle_reply is_closed }
{
    if is_closed {
        StepReply::Ended
    } else {
        StepReply::Idle
    }
}

/// Whether a job's end waits for a look. The prover keeps no branch of a call.
fn end_waits(ended: bool, waited: bool) -> bool
    ensures { result ≡ (ended || waited) }
{
    ended || waited
}

/// Whether a job has ended.
fn has_ended(job: &Option<Run>) -> bool
    ensures { result ≡ is_none job.now }
{
    match job {
        None => true,
        Some(_) => false,
    }
}

/// A job after a step: in a closed session none waits.
fn unless_waiting(job: Option<Run>, is_closed: bool) -> Option<Run>
    ensures { result ≡ if_closed is_closed job }
{
    if is_closed { closed(job) } else { job }
}
