//! What reads entries back: the state after an entry, which what is kept of it leads to the state before.
ghost use Rattle.std.specs.Prelude.{◌≡◌, ◌-◌, [], ◌∷◌, ◌++◌, None, take, drop};
ghost use Rattle.std.specs.Prelude.{length, reverse, IfOk, OnOk, OnErr};
ghost use Rattle.std.specs.Str.{IsUtf8};
ghost use Rattle.mc_text.specs.Routes.{path_fault, route_of};
ghost use Rattle.session_packed.specs.ReadingBack.{did_to, entry_at, step_entry, state, IsReadable};
ghost use Rattle.session_packed.specs.ReadingBack.{state_before, without_calls, without_path, without_whole};
ghost use Rattle.session_packed.specs.ReadingBack.{IsSomeWhole, whole_at};
ghost use Rattle.session_packed.specs.Walks.{entry_in};

use crate::delta::{Delta, PathKind, WholeEntry};
use crate::met::Met;
use job_reports::Did;
use mc_text::{NoMemory, Path, PathError};
use session_entries::{Entry, Event};
use std::alloc::Global;
use std::marker::Model;

/// The state after the entries that are left. Contracts see it as a `State`.
#[derive(Drop)]
pub struct Reader<'a> {
    tails: &'a [u8],
    wholes: &'a [WholeEntry],
    path: Vec<u8>,
    calls: u64,
    faults: u64,
}

impl<'a> Model for Reader<'a> {
    ghost use Rattle.std.specs.Prelude.{reverse};
    ghost use Rattle.session_packed.specs.ReadingBack.{State, state};

    ghost Value = { State };

    ghost view = { λ r. state r.tails.now (reverse r.wholes.now) r.path.items r.calls r.faults };
}

impl<'a> Reader<'a> {
    /// A reader in this state.
    pub fn new(
        tails: &'a [u8],
        wholes: &'a [WholeEntry],
        path: Vec<u8>,
        calls: u64,
        faults: u64,
    ) -> Reader<'a>
        ensures { result ≡ state tails.now (reverse wholes.now) path.items calls faults }
    {
        Reader {
            tails,
            wholes,
            path,
            calls,
            faults,
        }
    }

    /// Reads the entry of which this is kept, and goes to the state before it. Without memory for the entry
    /// the state stays as it is.
    pub fn back(&mut self, alloc: Global, delta: Delta) -> Result<Met<'a>, NoMemory>
        requires { IsReadable delta self.old }
        ensures met { IfOk result (λ met. entry_at delta self.old ≡ entry_in met ∷ []) }
        ensures before { OnOk result (self.new ≡ state_before delta self.old) }
        ensures same { OnErr result (self.new ≡ self.old) }
    {
        match delta {
            Delta::Named {
                job,
                shared,
                tail,
                calls,
                kind,
            } => {
                let path = self.path_back(alloc, shared, tail)?;
                Ok(self.step_back(job, did_to(kind, path), calls))
            }
            Delta::Chunk { job, count, calls } => Ok(self.step_back(job, Did::Chunk(count), calls)),
            Delta::Barrier { job, calls } => Ok(self.step_back(job, Did::Barrier, calls)),
            Delta::Whole => Ok(self.whole_back()),
        }
    }

    /// The newest path; the one before it is the newest from then on.
    fn path_back(&mut self, alloc: Global, shared: u16, tail: u16) -> Result<Path, NoMemory>
        requires text { IsUtf8 self.old.path }
        requires sound { path_fault self.old.path ≡ None }
        ensures path { IfOk result (λ path. path ≡ route_of self.old.path) }
        ensures before { OnOk result (self.new ≡ without_path shared tail self.old) }
        ensures same { OnErr result (self.new ≡ self.old) }
    {
        let path = path_in(alloc, self.path.as_slice())?;
        let (front, back) = cut(self.tails, tail as usize);
        lead_back(&mut self.path, shared as usize, back)?;
        self.tails = front;
        Ok(path)
    }

    /// The entry of a step by the main thread, which drew nothing. It made so many of the calls that were
    /// counted.
    fn step_back(&mut self, job: u32, did: Did, calls: u8) -> Met<'a>
        ensures met { entry_in result ≡ step_entry job did self.old.calls self.old.faults }
        ensures before { self.new ≡ without_calls calls self.old }
    {
        let entry = Entry {
            seat: 0,
            calls: self.calls,
            faults: self.faults,
            shown: 0,
            what: Event::Step { job, did },
        };
        self.calls = self.calls.saturating_sub(calls as u64);
        Met::Made(entry)
    }

    /// The newest entry that stands whole.
    fn whole_back(&mut self) -> Met<'a>
        requires { IsSomeWhole self.old.wholes }
        ensures met { whole_at self.old.wholes ≡ entry_in result ∷ [] }
        ensures before { self.new ≡ without_whole self.old.wholes self.old }
    {
        let Some((whole, more)) = self.wholes.split_last() else {
            unreachable!()
        };
        self.wholes = more;
        self.calls = whole.calls;
        self.faults = whole.faults;
        Met::Whole(&whole.entry)
    }
}

/// What a step of this kind did.
fn did_to(kind: PathKind, path: Path) -> Did
    ensures { result ≡ did_to kind path }
{
    match kind {
        PathKind::Began => Did::Began(path),
        PathKind::Placed => Did::Placed(path),
        PathKind::Removed => Did::Removed(path),
        PathKind::Made => Did::Made(path),
        PathKind::Set => Did::Set(path),
        PathKind::Kept => Did::Kept(path),
        PathKind::Cleaned => Did::Cleaned(path),
    }
}

/// The path with this text.
fn path_in(alloc: Global, text: &[u8]) -> Result<Path, NoMemory>
    requires text { IsUtf8 text.now }
    requires sound { path_fault text.now ≡ None }
    ensures { IfOk result (λ path. path ≡ route_of text.now) }
{
    let Ok(text) = str::from_utf8(text) else {
        unreachable!()
    };
    match Path::parse(alloc, text) {
        Ok(path) => Ok(path),
        Err(PathError::Memory) => Err(NoMemory),
        Err(_) => unreachable!(),
    }
}

/// So many bytes at the end, and those before.
fn cut(bytes: &[u8], count: usize) -> (&[u8], &[u8])
    ensures front { result.0.now ≡ take (length bytes.now - count) bytes.now }
    ensures back { result.1.now ≡ drop (length bytes.now - count) bytes.now }
{
    bytes.split_at(bytes.len().saturating_sub(count))
}

/// Leads a path back: so many of its bytes stay, and others follow.
fn lead_back(path: &mut Vec<u8>, shared: usize, tail: &[u8]) -> Result<(), NoMemory>
    ensures back { OnOk result (path.new.items ≡ take shared path.old.items ++ tail.now) }
    ensures same { OnErr result (path.new.items ≡ path.old.items) }
{
    path.reserve(tail.len())?;
    path.truncate(shared);
    let _whole = path.extend_from_slice(tail);
    Ok(())
}
