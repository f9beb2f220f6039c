//! Keys, looks and searches: what a session does for its user.
ghost use Rattle.std.specs.Prelude.{◌≡◌, ◌+◌, ◌≤◌, ◌<◌, ◌∷◌, ◌++◌, [], ℕ, List, true, false};
ghost use Rattle.std.specs.Prelude.{IsTrue, IsSome, IfErr, IfOk, IsOk, OnOk, OnErr, Ok, Err, Some, None};
ghost use Rattle.copy_move.specs.Told.{IsReady};
ghost use Rattle.mc_desk.specs.Standings.{awaited_by, is_quit};
ghost use Rattle.mc_desk.specs.Tallies.{can_step};
ghost use Rattle.mc_desk.specs.KeysAndFaults.{keys_in};
ghost use Rattle.mc_desk.specs.Desks.{BlamesScreen, CountsByte, FailsClosed, IsUncut, ShowsDesk};
ghost use Rattle.mc_desk.specs.Desks.{is_over, seeks, HasTaken, TakesByte, KeepsKeys};
ghost use Rattle.mc_desk.specs.Desks.{MayTake};
ghost use Rattle.mc_desk.specs.Sessions.{MayWork};
ghost use Rattle.mc_ui.specs.Seekings.{is_seeking};
ghost use Rattle.mc_desk.specs.Searches.{KeepsSource, steps_ahead};

use super::Session;
use crate::carrying::{Carried, carry_out};
use crate::drawing::{Drawing, drawing_after};
use crate::granting::{Granted, work};
use crate::replies::{DeskError, DeskReply};
use crate::rows::rows_of;
use crate::seeking::{Shown, drawn_behind, seek_and_show, sought_entry};
use crate::standing::{Due, can_step};
use crate::tag::Tag;
use key_screen::{Base, Fed, Key};
use session_entries::{Entry, Event, Refusals};
use session_log::plain_entry;
use std::alloc::Global;
use tree_trait::{Sink, SinkError, Source, Spawner, Tree};

impl<N: Tag, T: Tree, S: Sink, P: Spawner> Session<N, T, S, P> {
    /// Takes a byte and works the keys that it completes; the reply is that of the last. Each is drawn.
    /// Where it finds no memory before the byte is taken, nothing changes; each other error closes the
    /// session. One that is closed, or whose end was asked, takes no byte and answers `Quit`.
    pub fn byte(&mut self, alloc: Global, byte: u8, now: u64) -> Result<DeskReply, DeskError>
        requires looked { self.old.tally.due ≡ None }
        requires sought { MayTake byte self.old }
        requires uncut { IsUncut self.old }
        ensures shows { OnOk result (self.new.tally.closed ≡ false → ShowsDesk self.new) }
        ensures uncut { IsUncut self.new }
        ensures dirty { self.new.dirty ≡ self.old.dirty }
        ensures screen_failed { BlamesScreen result self.new.out.failed }
        ensures over { is_over self.old ≡ true → self.new ≡ self.old }
        ensures keys { is_over self.old ≡ false → (bytes : List ℕ) → HasTaken bytes self.old
            → TakesByte result bytes byte self.old self.new }
        ensures counted { is_over self.old ≡ false → CountsByte result self.old.taken self.new.taken }
        ensures quit { IfOk result (λ reply. is_quit reply ≡ is_over self.new) }
        ensures awaits { IfOk result (λ reply. awaited_by reply ≡ self.new.tally.due) }
        ensures fails { IfErr result (λ error. FailsClosed error self.old self.new) }
        ensures unclosed { OnOk result (self.new.tally.closed ≡ self.old.tally.closed) }
    {
        if self.standing.closed {
            return Ok(DeskReply::Quit);
        }
        if self.standing.quit {
            return self.still(DeskReply::Quit);
        }
        // No history has room for the keys of more bytes than are counted.
        let Some(taken) = self.taken.checked_add(1) else {
            return Err(DeskError::Memory);
        };
        if self.log.reserve(6).is_err() {
            return Err(DeskError::Memory);
        }
        self.taken = taken;
        let Fed { first, second } = self.keys.feed(byte);
        let Some(first) = first else {
            return self.still(DeskReply::Go);
        };
        let reply = self.work_key(alloc, first, now);
        let Some(second) = second else {
            return reply;
        };
        match reply {
            Err(error) => Err(error),
            Ok(_) => self.work_key(alloc, second, now),
        }
    }

    /// Takes up what the job did at a second of the clock, and draws. After the job's end the panels are read
    /// again, and a message tells of it where memory ran out or a part was left. Where nothing is due all
    /// stays as it is: so in a session that is closed, or whose end was asked.
    pub fn look(&mut self, alloc: Global, now: u64) -> Result<(), DeskError>
        requires uncut { IsUncut self.old }
        ensures second { OnOk result (IsSome self.old.tally.due → self.new.screen.second ≡ now) }
        ensures shows { OnOk result (self.new.tally.closed ≡ false → ShowsDesk self.new) }
        ensures uncut { IsUncut self.new }
        ensures keys { KeepsKeys self.old self.new }
        ensures dirty { self.new.dirty ≡ self.old.dirty }
        ensures screen_failed { BlamesScreen result self.new.out.failed }
        ensures looked { OnOk result (can_step self.old.tally.job ≡ false → self.new.tally.due ≡ None) }
        ensures fails { IfErr result (λ error. FailsClosed error self.old self.new) }
        ensures unclosed { OnOk result (self.new.tally.closed ≡ self.old.tally.closed) }
        ensures quit { self.new.quit ≡ self.old.quit }
    {
        let Some(_) = self.due() else {
            self.still(DeskReply::Go)?;
            return Ok(());
        };
        if self.log.reserve(3).is_err() {
            return Err(DeskError::Memory);
        }
        let Ok(news) = self.log.news_left(alloc) else {
            return Err(DeskError::Memory);
        };
        let Ok(rows) = rows_of(alloc, &self.standing.job, &self.log) else {
            return Err(DeskError::Memory);
        };
        let has_unseen_end = self.standing.has_unseen_end;
        let Ok(refusals) = self
            .ui
            .look(alloc, &mut self.tree, &rows, now, has_unseen_end, news)
        else {
            return Err(DeskError::Memory);
        };
        let drawn = self.terminal.show(
            alloc,
            Drawing::Changes,
            &self.ui,
            &self.standing.job,
            &self.log,
        );
        self.log.note(Entry {
            seat: 0,
            calls: self.standing.calls,
            faults: self.tree.faults(),
            shown: self.terminal.shown(),
            what: Event::Look { refusals },
        });
        self.standing.look_taken();
        self.after_draw(drawn)?;
        Ok(())
    }

    /// Makes steps of the search that goes on, to its end, or to where C-c waits in the source, or 50,000,
    /// and draws. Where none goes on all stays as it is. Where memory is wanting for a step the session is
    /// closed, once what was found by then is drawn.
    pub fn seek<K: Source>(&mut self, alloc: Global, keys: &mut K) -> Result<(), DeskError>
        requires looked { self.old.tally.due ≡ None }
        requires uncut { IsUncut self.old }
        ensures shows { OnOk result (self.new.tally.closed ≡ false → ShowsDesk self.new) }
        ensures uncut { IsUncut self.new }
        ensures keys { KeepsKeys self.old self.new }
        ensures dirty { self.new.dirty ≡ self.old.dirty }
        ensures screen_failed { BlamesScreen result self.new.out.failed }
        ensures looked { OnOk result (self.new.tally.due ≡ None) }
        ensures nearer { OnOk result (seeks self.old ≡ true
            → steps_ahead self.new.screen < steps_ahead self.old.screen) }
        ensures over { seeks self.old ≡ false → self.new ≡ self.old }
        ensures source { KeepsSource (K.left keys.old) (K.left keys.new) (K.fault_count keys.old)
            (K.fault_count keys.new) }
        ensures fails { IfErr result (λ error. FailsClosed error self.old self.new) }
        ensures unclosed { OnOk result (self.new.tally.closed ≡ self.old.tally.closed) }
        ensures quit { self.new.quit ≡ self.old.quit }
    {
        if !self.is_seeking() {
            self.still(DeskReply::Go)?;
            return Ok(());
        }
        if self.log.reserve(3).is_err() {
            return Err(DeskError::Memory);
        }
        let Shown { sought, drawn } = seek_and_show(
            alloc,
            &mut self.ui,
            &mut self.tree,
            keys,
            &self.standing.job,
            &self.log,
            &mut self.terminal,
        );
        let faults = self.tree.faults();
        let entry = sought_entry(self.standing.calls, faults, self.terminal.shown());
        self.log.note(entry);
        self.after_draw(drawn_behind(sought, drawn))?;
        Ok(())
    }

    /// Whether a search goes on, in a session that takes keys.
    pub fn is_seeking(&self) -> bool
        ensures { result ≡ seeks self.now }
    {
        !self.standing.closed && !self.standing.quit && self.ui.is_seeking()
    }

    /// Whether the next byte begins a key.
    pub fn is_between_keys(&self) -> bool
        ensures { result ≡ true → self.now.pending ≡ [] }
    {
        self.keys.pending() == 0
    }

    /// What is to be looked at before the next byte: the job of this number, or 0 for the opening frame.
    pub fn due(&self) -> Option<u32>
        ensures { result ≡ self.now.tally.due }
    {
        match self.standing.due {
            Due::Nothing => None,
            Due::First => Some(0),
            Due::Job(job) => Some(job),
        }
    }

    /// Whether this job is live and can be stepped.
    pub fn is_ready(&self, job: u32) -> bool
        ensures ready { IsTrue result → IsReady self.now.job }
        ensures due { self.now.tally.due ≡ Some job → result ≡ can_step self.now.tally.job }
    {
        match &self.standing.job {
            None => false,
            Some(live) => live.id() == job && !live.waits(),
        }
    }

    /// Works one key, writes it down, and begins the job that it asks for.
    fn work_key(&mut self, alloc: Global, key: Key, now: u64) -> Result<DeskReply, DeskError>
        requires unclosed { self.old.tally.closed ≡ false }
        requires unasked { self.old.quit ≡ false }
        requires looked { self.old.tally.due ≡ None }
        requires sought { MayWork key self.old.screen }
        requires room { 4 ≤ self.old.spare }
        requires uncut { self.old.out.put.is_cut ≡ false }
        ensures shows { OnOk result (self.new.tally.closed ≡ false → ShowsDesk self.new) }
        ensures uncut { IsUncut self.new }
        ensures keys { keys_in self.new.newest ≡ keys_in self.old.newest ++ key ∷ [] }
        ensures pending { self.new.pending ≡ self.old.pending }
        ensures taken { self.new.taken ≡ self.old.taken }
        ensures dirty { self.new.dirty ≡ self.old.dirty }
        ensures screen_failed { BlamesScreen result self.new.out.failed }
        ensures unclosed { OnOk result (self.new.tally.closed ≡ false) }
        ensures shut { OnErr result (self.new.tally.closed ≡ true) }
        ensures looked { OnOk result (key.base ≡ Base.Unknown → self.new.tally.due ≡ None) }
        ensures unasked { OnOk result (key.base ≡ Base.Unknown → self.new.quit ≡ false) }
        ensures sought { OnOk result (key.base ≡ Base.Unknown → is_seeking self.new.screen ≡ false) }
        ensures room { OnOk result (self.old.spare ≤ self.new.spare + 2) }
        ensures quit { IfOk result (λ reply. is_quit reply ≡ self.new.quit) }
        ensures awaits { IfOk result (λ reply. awaited_by reply ≡ self.new.tally.due) }
    {
        let Ok(rows) = rows_of(alloc, &self.standing.job, &self.log) else {
            return self.lose_key(alloc, key, now);
        };
        let next = self.standing.next_id();
        let Ok(granted) = work(alloc, &mut self.ui, &mut self.tree, &rows, next, key, now) else {
            return self.lose_key(alloc, key, now);
        };
        let Granted { deed, refusals } = granted;
        let calls = self.standing.calls;
        let Carried { follows, drawn } = carry_out(
            alloc,
            deed,
            drawing_after(key),
            &self.ui,
            &self.log,
            &mut self.standing,
            &mut self.terminal,
        );
        let reply = self.standing.reply();
        let faults = self.tree.faults();
        self.log.note(Entry {
            seat: 0,
            calls,
            faults,
            shown: self.terminal.shown(),
            what: Event::Key {
                key,
                now,
                refusals,
                lost: false,
            },
        });
        self.log.note_after(calls, faults, follows);
        self.after_draw(drawn)?;
        Ok(reply)
    }

    /// Writes down that a key was lost since memory ran out, and closes the session.
    fn lose_key(&mut self, alloc: Global, key: Key, now: u64) -> Result<DeskReply, DeskError>
        requires unclosed { self.old.tally.closed ≡ false }
        requires unasked { self.old.quit ≡ false }
        requires looked { self.old.tally.due ≡ None }
        requires sought { MayWork key self.old.screen }
        requires room { 3 ≤ self.old.spare }
        requires uncut { self.old.out.put.is_cut ≡ false }
        ensures screen { self.new.screen ≡ self.old.screen }
        ensures keys { keys_in self.new.newest ≡ keys_in self.old.newest ++ key ∷ [] }
        ensures pending { self.new.pending ≡ self.old.pending }
        ensures taken { self.new.taken ≡ self.old.taken }
        ensures dirty { self.new.dirty ≡ self.old.dirty }
        ensures closed { self.new.tally.closed ≡ true }
        ensures error { result ≡ Err DeskError.Memory }
    {
        let calls = self.standing.calls;
        let faults = self.tree.faults();
        self.standing.lost = true;
        self.log.note(Entry {
            seat: 0,
            calls,
            faults,
            shown: self.terminal.shown(),
            what: Event::Key {
                key,
                now,
                refusals: Refusals(Vec::new(alloc)),
                lost: true,
            },
        });
        self.log.note(plain_entry(calls, faults, Event::Closed));
        self.standing.close();
        Err(DeskError::Memory)
    }

    /// The reply where nothing is drawn: the terminal of an open session shows the frame still.
    fn still(&mut self, reply: DeskReply) -> Result<DeskReply, DeskError>
        requires looked { self.old.tally.due ≡ None }
        requires uncut { IsUncut self.old }
        ensures same { self.new ≡ self.old }
        ensures reply { result ≡ Ok reply }
        ensures shows { self.new.tally.closed ≡ false → ShowsDesk self.new }
    {
        let _shown = self.terminal.shown();
        Ok(reply)
    }

    /// Closes the session after a draw that failed.
    fn after_draw(&mut self, drawn: Result<(), SinkError>) -> Result<(), DeskError>
        requires screen_failed { drawn ≡ Err SinkError.Fault → self.old.out.failed ≡ true }
        requires whole { OnOk drawn (self.old.out.put.is_cut ≡ false) }
        ensures whole { OnOk result (self.new.out.put.is_cut ≡ false) }
        ensures drawn { OnOk result (IsOk drawn) }
        ensures uncut { IsUncut self.new }
        ensures screen { self.new.screen ≡ self.old.screen }
        ensures keys { KeepsKeys self.old self.new }
        ensures dirty { self.new.dirty ≡ self.old.dirty }
        ensures screen_failed { BlamesScreen result self.new.out.failed }
        ensures same { OnOk result (self.new ≡ self.old) }
        ensures shut { OnErr result (self.new.tally.closed ≡ true) }
        ensures quit { self.new.quit ≡ self.old.quit }
    {
        match drawn {
            Ok(()) => Ok(()),
            Err(error) => {
                self.close();
                Err(desk_error(error))
            }
        }
    }
}

/// What is answered after a draw that failed.
fn desk_error(error: SinkError) -> DeskError
    ensures { result ≡ DeskError.Screen → error ≡ SinkError.Fault }
{
    match error {
        SinkError::Fault => DeskError::Screen,
        SinkError::Memory => DeskError::Memory,
    }
}
