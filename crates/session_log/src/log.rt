//! The history as it is written: entries are added in room that was made before, so that
//! nothing is half written down.
ghost use Rattle.std.specs.Prelude.{◌≡◌, ◌+◌, ◌-◌, ◌^◌, ◌≤◌, ◌<◌, [], ◌∷◌};
ghost use Rattle.std.specs.Prelude.{length, IfOk, IsOk, OnOk, OnErr, reverse};
ghost use Rattle.session_log.specs.Logs.{begun_by, entries_with_event, jobs_begun, plain_entry};
ghost use Rattle.session_log.specs.Told.{end_news as news_of, is_end_or_look as ends_or_looks};
ghost use Rattle.session_log.specs.Told.{is_report as does_report, news_left as last_news};
ghost use Rattle.session_log.specs.Told.{reported_waits as waits_in, told_end, waits_told as last_waits};

use crate::history::{Entries, History};
use job_reports::{Did, Ending, Waits, is_end};
use mc_text::{NoMemory, Path};
use session_entries::{Entry, Event};
use session_packed::{NewestFirst, PackedEntries};
use std::alloc::Global;
use std::marker::Model;
use ui_words::Message;

/// The entries so far, and how many jobs they began. Contracts see them newest first, and
/// how many more find room.
#[derive(Debug, Drop)]
pub struct Log {
    entries: PackedEntries,
    started: u64,
}

impl Model for Log {
    ghost use Rattle.std.specs.Prelude.{◌≡◌};
    ghost use Rattle.session_log.specs.Logs.{Logged, jobs_begun};

    ghost Value = { Logged };

    ghost view = { λ l. record { newest = l.entries.newest; spare = l.entries.spare } };

    ghost invariant = { λ l. l.started ≡ jobs_begun l.entries.newest };
}

impl Log {
    ghost use Rattle.session_log.specs.Logs.{Logged};

    /// No entries, and room for one.
    pub fn new(alloc: Global) -> Result<Log, NoMemory>
        ensures empty { IfOk result (λ log. log.newest ≡ []) }
        ensures room { IfOk result (λ log. 1 ≤ log.spare) }
    {
        Ok(Log {
            entries: PackedEntries::new(alloc)?,
            started: 0,
        })
    }

    /// Makes room for this many more. Room that is there already is never refused; there is none where the
    /// history would have more than 2^56 entries.
    pub fn reserve(&mut self, count: usize) -> Result<(), NoMemory>
        ensures same { self.new.newest ≡ self.old.newest }
        ensures room { OnOk result (count ≤ self.new.spare) }
        ensures bounded { OnOk result (length self.new.newest + count ≤ 2 ^ 56) }
        ensures kept { self.old.spare ≤ self.new.spare }
        ensures succeeds { count ≤ self.old.spare → IsOk result }
    {
        self.entries.reserve(count)?;
        Ok(())
    }

    /// Adds an entry in room that there is.
    pub fn note(&mut self, entry: Entry)
        requires { 0 < self.old.spare }
        ensures added { self.new.newest ≡ entry ∷ self.old.newest }
        ensures room { self.old.spare ≤ self.new.spare + 1 }
    {
        // No more jobs were begun than there are entries, which are few.
        let _count = self.entries.len();
        self.started += begun_by(&entry.what);
        self.entries.push(entry);
    }

    /// Adds what is written directly after an entry, if there is something.
    pub fn note_after(&mut self, calls: u64, faults: u64, what: Option<Event>)
        requires { 0 < self.old.spare }
        ensures added { self.new.newest ≡ entries_with_event calls faults what self.old.newest }
        ensures room { self.old.spare ≤ self.new.spare + 1 }
    {
        if let Some(what) = what {
            self.note(plain_entry(calls, faults, what));
        }
    }

    /// What is to be told of the last job's end, if no look has taken this end up.
    pub fn news_left(&self, alloc: Global) -> Result<Option<Message>, NoMemory>
        ensures { IfOk result (λ news. news ≡ last_news self.now.newest) }
    {
        news_left(alloc, self.entries.newest_first(alloc)?)
    }

    /// The question or the trouble that the newest report of a step tells, if it tells of one.
    pub fn waits_told(&self, alloc: Global) -> Result<Option<Waits>, NoMemory>
        ensures { IfOk result (λ waits. waits ≡ last_waits self.now.newest) }
    {
        waits_told(alloc, self.entries.newest_first(alloc)?)
    }

    /// The history. The newest entry comes last there.
    #[tactic(auto, using(crate::proofs::Counting::turned))]
    pub fn into_history(self) -> History
        ensures entries { reverse result.entries ≡ self.newest }
        ensures started { result.started ≡ jobs_begun result.entries }
    {
        let Log { entries, started } = self;
        History {
            started,
            entries: Entries(entries),
        }
    }
}

/// An entry that draws nothing.
pub fn plain_entry(calls: u64, faults: u64, what: Event) -> Entry
    ensures { result ≡ plain_entry calls faults what }
{
    Entry {
        seat: 0,
        calls,
        faults,
        shown: 0,
        what,
    }
}

/// One, if an entry began a job.
fn begun_by(what: &Event) -> u64
    ensures { result ≡ begun_by what.now }
{
    match what {
        Event::Began { .. } => 1,
        _ => 0,
    }
}

/// What is to be told of the last end among the entries that are left, if no look has taken this end up.
fn news_left(alloc: Global, entries: NewestFirst<'_>) -> Result<Option<Message>, NoMemory>
    ensures { IfOk result (λ news. news ≡ last_news entries.entry) }
{
    let mut left = entries;
    while let Some(met) = left.next(alloc)? {
        let entry = met.entry();
        if is_end_or_look(&entry.what) {
            return end_news(alloc, &entry.what);
        }
    }
    Ok(None)
}

/// Whether an event is a job's end, or a look.
fn is_end_or_look(what: &Event) -> bool
    ensures { result ≡ ends_or_looks what.now }
{
    match what {
        Event::Look { .. } => true,
        Event::Step { did, .. } => is_end(did),
        _ => false,
    }
}

/// What is to be told of an event, where it is a job's end.
fn end_news(alloc: Global, what: &Event) -> Result<Option<Message>, NoMemory>
    ensures { IfOk result (λ news. news ≡ news_of what.now) }
{
    match what {
        Event::Step {
            did: Did::Ended { ending, part },
            ..
        } => told_of_end(alloc, *ending, part),
        _ => Ok(None),
    }
}

/// What is told of a job's end: that memory ran out, and the part that it left.
fn told_of_end(
    alloc: Global,
    ending: Ending,
    part: &Option<Path>,
) -> Result<Option<Message>, NoMemory>
    ensures { IfOk result (λ news. news ≡ told_end ending part.now) }
{
    let part = copied(alloc, part)?;
    match ending {
        Ending::NoMemory => Ok(Some(Message::OutOfMemory(part))),
        Ending::Finished | Ending::Aborted | Ending::Killed => Ok(part.map(Message::PartLeft)),
    }
}

/// A path once more, if there is one.
fn copied(alloc: Global, path: &Option<Path>) -> Result<Option<Path>, NoMemory>
    ensures { IfOk result (λ copy. copy ≡ path.now) }
{
    match path {
        None => Ok(None),
        Some(path) => Ok(Some(path.copy(alloc)?)),
    }
}

/// The question or the trouble of the newest report among the entries that are left, if it tells of one.
fn waits_told(alloc: Global, entries: NewestFirst<'_>) -> Result<Option<Waits>, NoMemory>
    ensures { IfOk result (λ waits. waits ≡ last_waits entries.entry) }
{
    let mut left = entries;
    while let Some(met) = left.next(alloc)? {
        let entry = met.entry();
        if is_report(&entry.what) {
            return reported_waits(alloc, &entry.what);
        }
    }
    Ok(None)
}

/// Whether an entry reports a step.
fn is_report(what: &Event) -> bool
    ensures { result ≡ does_report what.now }
{
    matches!(what, Event::Step { .. })
}

/// The question or the trouble that an entry tells of.
fn reported_waits(alloc: Global, what: &Event) -> Result<Option<Waits>, NoMemory>
    ensures { IfOk result (λ waits. waits ≡ waits_in what.now) }
{
    match what {
        Event::Step {
            did: Did::Asked(question),
            ..
        } => Ok(Some(Waits::Question(question.copy(alloc)?))),
        Event::Step {
            did: Did::Troubled(trouble),
            ..
        } => Ok(Some(Waits::Trouble(trouble.copy(alloc)?))),
        _ => Ok(None),
    }
}
