//! The desk: a session, and how many bytes of the keyboard it has taken. These are the first
//! that the keyboard gives.
ghost use Rattle.std.specs.Prelude.{◌≡◌, ◌<◌, ◌≤◌, false, true, [], Option, IfOk, IfErr};
ghost use Rattle.std.specs.Prelude.{IsSome, IsTrue, OnOk, None, Some, if◌then◌else◌, reverse};
ghost use Rattle.tree_trait.specs.Change.{current};
ghost use Rattle.tree_trait.specs.Answers.{IfKnown, HasRisen};
ghost use Rattle.session_entries.specs.SourcesLeft.{AreInTurn};
ghost use Rattle.laws_sessions.specs.ToldJob.{live_job};
ghost use Rattle.copy_move.specs.Told.{IsReady};
ghost use Rattle.laws_sessions.specs.Traces.{IsTracedTo};
ghost use Rattle.session_log.specs.Logs.{jobs_begun};
ghost use Rattle.mc_desk.specs.Sessions.{BeginsIn, EndsSession};
ghost use Rattle.mc_desk.specs.Starts.{CanStart, IsStartCause, is_start_fault};
ghost use Rattle.mc_desk.specs.Tallies.{can_step};
ghost use Rattle.mc_desk.specs.KeysAndFaults.{faults_in, has_lost};
ghost use Rattle.mc_desk.specs.Outputs.{Blames};
ghost use Rattle.mc_desk.specs.DeskDevices.{HasGiven, put_since, RanNothing};
ghost use Rattle.mc_desk.specs.Standings.{awaited_by, is_quit};
ghost use Rattle.mc_desk.specs.Desks.{BlamesScreen, CountsByte, FailsClosed, IsFresh, IsNext, KeepsKeys};
ghost use Rattle.mc_desk.specs.Desks.{MayTake, MovesDirty, ShowsDesk, idle_reply, is_over, rank_of, seeks};
ghost use Rattle.mc_desk.specs.KeysTaken.{Reads};
ghost use Rattle.mc_desk.specs.Searches.{KeepsSource, steps_ahead};

use crate::opening::open;
use crate::replies::{DeskError, DeskReply, Ended, Refused, StepReply};
use crate::session::Session;
use crate::starts::Start;
use crate::tag::Tag;
use std::alloc::Global;
use std::marker::Model;
use tree_trait::{Sink, Source, Spawner, Tree};

/// A desk. `N` names the world as the session found it.
#[derive(Drop)]
pub struct Desk<N: Tag, T: Tree, S: Sink, P: Spawner> {
    session: Session<N, T, S, P>,
}

impl<N: Tag, T: Tree, S: Sink, P: Spawner> Model for Desk<N, T, S, P> {
    ghost use Rattle.mc_desk.specs.Desks.{Seen, KeepsStream};

    ghost Value = { Seen };

    ghost view = { λ d. d.session };

    ghost invariant = { λ d. KeepsStream N.stream d.session };
}

impl<N: Tag, T: Tree, S: Sink, P: Spawner> Desk<N, T, S, P> {
    /// Opens a session at a second of the clock: in the folders to which two paths lead, or in the viewer
    /// on the file to which one does. It is refused as the first of its paths that leads to no folder that
    /// can be listed, or to no file that can be read, or since memory ran out; the devices are as they were
    /// then, but for the tree's count of faults.
    pub fn begin(
        alloc: Global,
        start: Start,
        now: u64,
        tree: T,
        screen: S,
        spawner: P,
    ) -> Result<Desk<N, T, S, P>, Refused<T, S, P>>
        // The type names what there is.
        requires start { BeginsIn N.start start }
        requires opening { T.contents tree ≡ N.opening }
        requires faults { N.tree_faults ≤ T.fault_count tree }
        requires given { S.given screen ≡ N.given }
        requires sink { N.sink_faults ≤ S.fault_count screen }
        requires runs { P.runs spawner ≡ N.runs }
        requires spawner { P.fault_count spawner ≡ N.spawner_faults }

        ensures fresh { IfOk result IsFresh }
        ensures permitted { IfKnown (T.contents tree) (λ log.
            OnOk result (CanStart (current log) start.mode)) }
        ensures cause { IfKnown (T.contents tree) (λ log.
            IfErr result (λ r. IsStartCause (current log) start.mode r.error)) }
        ensures fault { IfErr result (λ r. is_start_fault r.error ≡ true
            → HasRisen (T.fault_count tree) (T.fault_count r.tree)) }
        ensures same { IfErr result (λ r. T.contents r.tree ≡ T.contents tree) }
        ensures later { IfErr result (λ r. T.fault_count tree ≤ T.fault_count r.tree) }
        ensures same_screen { IfErr result (λ r. r.screen ≡ screen) }
        ensures same_spawner { IfErr result (λ r. r.spawner ≡ spawner) }
    {
        let mut tree = tree;
        match open(alloc, &mut tree, start, now) {
            Ok((ui, log, blank)) => {
                let session = Session::new(alloc, tree, screen, spawner, ui, log, blank);
                Ok(Desk { session })
            }
            Err(error) => Err(Refused {
                error,
                tree,
                screen,
                spawner,
            }),
        }
    }

    /// Takes the next byte of the keyboard and works the keys that it completes; the reply is that of the
    /// last. Each is drawn. While a search goes on the byte is that of C-c, which stops it. Where it finds no
    /// memory before the byte is taken, nothing changes; each other error closes the desk. `Wait` names the
    /// job that is due then. One that is closed, or whose end was asked, takes no byte and answers `Quit`.
    pub fn byte(&mut self, alloc: Global, byte: u8, now: u64) -> Result<DeskReply, DeskError>
        requires looked { self.old.tally.due ≡ None }
        requires sought { MayTake byte self.old }
        requires next { IfKnown N.stream (λ bytes. IsNext bytes self.old.taken byte) }

        // On an open desk a terminal shows of all that was put the frame of what the screen shows.
        ensures shows { OnOk result (self.new.tally.closed ≡ false → ShowsDesk self.new) }
        ensures quit { IfOk result (λ reply. is_quit reply ≡ is_over self.new) }
        ensures awaits { IfOk result (λ reply. awaited_by reply ≡ self.new.tally.due) }
        ensures fails { IfErr result (λ error. FailsClosed error self.old self.new) }
        ensures over { is_over self.old ≡ true → self.new ≡ self.old }
        ensures taken { is_over self.old ≡ false → CountsByte result self.old.taken self.new.taken }
        ensures unclosed { OnOk result (self.new.tally.closed ≡ self.old.tally.closed) }
        ensures dirty { self.new.dirty ≡ self.old.dirty }
        ensures screen_failed { BlamesScreen result self.new.out.failed }
    {
        self.session.byte(alloc, byte, now)
    }

    /// Takes up what the job did at a second of the clock, by which times are told then, and draws. After the
    /// job's end the panels are read again, and a message
    /// tells of it where memory ran out or a part was left. Where nothing is due the desk stays as it is:
    /// so one that is closed, or whose end was asked.
    pub fn look(&mut self, alloc: Global, now: u64) -> Result<(), DeskError>
        ensures second { OnOk result (IsSome self.old.tally.due → self.new.screen.second ≡ now) }
        ensures shows { OnOk result (self.new.tally.closed ≡ false → ShowsDesk self.new) }
        ensures looked { OnOk result (can_step self.old.tally.job ≡ false → self.new.tally.due ≡ None) }
        ensures fails { IfErr result (λ error. FailsClosed error self.old self.new) }
        ensures keys { KeepsKeys self.old self.new }
        ensures unclosed { OnOk result (self.new.tally.closed ≡ self.old.tally.closed) }
        ensures quit { self.new.quit ≡ self.old.quit }
        ensures dirty { self.new.dirty ≡ self.old.dirty }
        ensures screen_failed { BlamesScreen result self.new.out.failed }
    {
        self.session.look(alloc, now)
    }

    /// Makes steps of the search that goes on, to its end, or to where C-c waits in the source, or 50,000,
    /// and draws the list as it then is. Of the source it is asked after each 1,000 steps whether that is
    /// the next byte. Where no search goes on the desk stays as it is. Where memory is wanting for a step
    /// the desk is closed, once what was found by then is drawn.
    pub fn seek<K: Source>(&mut self, alloc: Global, keys: &mut K) -> Result<(), DeskError>
        requires looked { self.old.tally.due ≡ None }
        ensures shows { OnOk result (self.new.tally.closed ≡ false → ShowsDesk self.new) }
        ensures nearer { OnOk result (seeks self.old ≡ true
            → steps_ahead self.new.screen < steps_ahead self.old.screen) }
        ensures over { seeks self.old ≡ false → self.new ≡ self.old }
        ensures looked { OnOk result (self.new.tally.due ≡ None) }
        ensures fails { IfErr result (λ error. FailsClosed error self.old self.new) }
        ensures keys { KeepsKeys self.old self.new }
        ensures unclosed { OnOk result (self.new.tally.closed ≡ self.old.tally.closed) }
        ensures quit { self.new.quit ≡ self.old.quit }
        ensures dirty { self.new.dirty ≡ self.old.dirty }
        ensures screen_failed { BlamesScreen result self.new.out.failed }
        ensures source { KeepsSource (K.left keys.old) (K.left keys.new) (K.fault_count keys.old)
            (K.fault_count keys.new) }
    {
        self.session.seek(alloc, keys)
    }

    /// Whether a search goes on, on a desk that takes keys.
    pub fn is_seeking(&self) -> bool
        ensures { result ≡ seeks self.now }
    {
        self.session.is_seeking()
    }

    /// Whether the next byte begins a key.
    pub fn is_between_keys(&self) -> bool
        ensures { result ≡ true → self.now.pending ≡ [] }
    {
        self.session.is_between_keys()
    }

    /// What is to be looked at before the next byte: the job of this number, or 0 for the opening frame.
    pub fn due(&self) -> Option<u32>
        ensures { result ≡ self.now.tally.due }
    {
        self.session.due()
    }

    /// Whether this job is live and can be stepped.
    pub fn is_ready(&self, job: u32) -> bool
        ensures ready { IsTrue result → IsReady self.now.job }
        ensures due { self.now.tally.due ≡ Some job → result ≡ can_step self.now.tally.job }
    {
        self.session.is_ready(job)
    }

    /// Makes one step of the job, if it is ready: `Did` where an entry was added. Where a source is
    /// finished, the job goes on with the next one, and that is what the entry tells. Without memory for
    /// the entry no call of the tree is made, and the job ends by the entry for which room was kept. Only
    /// the main thread steps yet, whose seat is 0.
    pub fn step(&mut self, alloc: Global, seat: u32) -> StepReply
        requires main { seat ≡ 0 }
        ensures reply { result
            ≡ (if can_step self.old.tally.job then StepReply.Did else idle_reply self.old.tally.closed) }
        ensures screen { self.new.screen ≡ self.old.screen }
        ensures keys { KeepsKeys self.old self.new }
        ensures dirty { MovesDirty self.old.job self.new.newest self.old.dirty self.new.dirty }
        ensures same { (self.new.tally.closed ≡ self.old.tally.closed)
            × (self.new.tally.due ≡ self.old.tally.due) }
        ensures quit { self.new.quit ≡ self.old.quit }
        ensures nearer { self.old.tally.closed ≡ true → IsSome self.old.job
            → rank_of self.new < rank_of self.old }
        ensures worked { IsReady self.old.job → rank_of self.new < rank_of self.old }
    {
        self.session.step(alloc, seat)
    }

    /// Closes the desk: no more keys are taken, and a job that waits for an answer is aborted. It takes no
    /// memory. A closed desk stays as it is.
    pub fn close(&mut self)
        ensures closed { self.new.tally.closed ≡ true }
        ensures screen { self.new.screen ≡ self.old.screen }
        ensures keys { KeepsKeys self.old self.new }
        ensures dirty { self.new.dirty ≡ self.old.dirty }
        ensures out { self.new.out ≡ self.old.out }
        ensures quit { self.new.quit ≡ self.old.quit }
    {
        self.session.close();
    }

    /// Ends the session: the desk is closed, and its job stepped to the end.
    pub fn end(self, alloc: Global) -> Ended<T, S, P>
        // The history is a session over the tree, no job is live at its end, and the sources of
        // each were worked in turn.
        ensures session { EndsSession N.start N.opening N.tree_faults (reverse result.history.entries)
            (T.contents result.tree)
            (record { bytes = put_since N.given (S.given result.screen); is_cut = self.out.put.is_cut })
            result.quit }
        ensures given { HasGiven N.given (put_since N.given (S.given result.screen)) (S.given result.screen) }
        ensures uncut { self.out.put.is_cut ≡ true → self.tally.closed ≡ true }
        ensures traced { IsTracedTo N.opening (T.contents result.tree) (reverse result.history.entries) }
        ensures idle { live_job (reverse result.history.entries) ≡ None }
        ensures turns { AreInTurn (reverse result.history.entries) }
        ensures counted { result.history.started ≡ jobs_begun result.history.entries }

        // Its keys are those of the bytes that were taken.
        ensures keys { IfKnown N.stream (λ bytes.
            Reads bytes self.taken self.tally.closed (reverse result.history.entries)) }
        ensures lost { result.lost ≡ has_lost (reverse result.history.entries) }
        ensures quit { result.quit ≡ self.quit }

        // The devices' counts of faults, and the commands.
        ensures screen { Blames result.failed N.sink_faults (S.fault_count result.screen) }
        ensures faults { faults_in N.tree_faults (reverse result.history.entries)
            ≤ T.fault_count result.tree }
        ensures commands { RanNothing N.runs (P.runs result.spawner) N.spawner_faults
            (P.fault_count result.spawner) }
    {
        let Desk { session } = self;
        session.end(alloc)
    }
}
