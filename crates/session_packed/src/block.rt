//! Some entries in one piece of memory: where it is full the next one is begun, and it grows only where there
//! is no memory for that one.
ghost use Rattle.std.specs.Prelude.{◌≡◌, ◌+◌, ◌≤◌, ◌<◌, ◌^◌, true, false, [], ◌∷◌, IfOk, IsOk, OnOk, length};
ghost use Rattle.job_reports.specs.declared.report.Did.TheVariants.{Chunk, Barrier};
ghost use Rattle.session_packed.specs.ReadingBack.{did_to, step_entry};
ghost use Rattle.session_packed.specs.Shorts.{entry_of as short_entry};

use crate::delta::{Delta, PathKind, WholeEntry};
use crate::reader::Reader;
use crate::short::{Short, ShortDid, keep_difference, short_of};
use crate::walk::BlockWalk;
use mc_text::{NoMemory, Path, Text};
use session_entries::Entry;
use std::alloc::Global;
use std::convert::AsStr;
use std::marker::Model;

/// How many entries a block has room for, and how many bytes of paths.
const ENTRIES: usize = 2048;

const PATH_BYTES: usize = 1 << 15;

/// The most bytes that are kept of a path.
const MOST_BYTES: usize = 4096;

/// Some entries. Contracts see them newest first, and how many more find room.
#[derive(Debug, Drop)]
pub struct Block {
    deltas: Vec<Delta>,
    tails: Vec<u8>,
    wholes: Vec<WholeEntry>,
    path: Text,
    calls: u64,
    faults: u64,
}

impl Model for Block {
    ghost use Rattle.std.specs.Prelude.{◌-◌, reverse, vec_len, min};
    ghost use Rattle.std.specs.Vec.{vec_capacity};
    ghost use Rattle.session_packed.specs.Blocks.{BlockView};
    ghost use Rattle.session_packed.specs.ReadingBack.{entries_in, state, AreReadable};

    ghost Value = { BlockView };

    ghost view = { λ b. record {
      newest = entries_in (reverse b.deltas.items)
          (state b.tails.items (reverse b.wholes.items) b.path b.calls b.faults);
      spare = min (vec_capacity b.deltas - vec_len b.deltas) (vec_capacity b.wholes - vec_len b.wholes);
      calls = b.calls;
      faults = b.faults;
    } };

    ghost invariant = { λ b. AreReadable (reverse b.deltas.items)
        (state b.tails.items (reverse b.wholes.items) b.path b.calls b.faults) };
}

impl Block {
    /// No entries, and room for so many. So many calls and faults were counted before.
    pub fn new(alloc: Global, room: usize, calls: u64, faults: u64) -> Result<Block, NoMemory>
        ensures empty { IfOk result (λ block. block.newest ≡ []) }
        ensures room { IfOk result (λ block. room ≤ block.spare) }
    {
        Ok(Block {
            deltas: Vec::with_capacity(alloc, room.max(ENTRIES))?,
            tails: Vec::with_capacity(alloc, PATH_BYTES)?,
            wholes: Vec::with_capacity(alloc, room)?,
            path: Text(String::new(alloc)),
            calls,
            faults,
        })
    }

    /// No entries, and no room. It takes no memory.
    pub fn none(alloc: Global) -> Block
        ensures { result.newest ≡ [] }
    {
        Block {
            deltas: Vec::new(alloc),
            tails: Vec::new(alloc),
            wholes: Vec::new(alloc),
            path: Text(String::new(alloc)),
            calls: 0,
            faults: 0,
        }
    }

    /// Whether it's time for a new block, where so many entries are to find room.
    pub fn is_full(&self, count: usize) -> bool {
        self.deltas.len().saturating_add(count) > self.deltas.capacity()
            || self.tails.len().saturating_add(MOST_BYTES) > PATH_BYTES
    }

    /// A block behind this one, with no entries, and at least as much room.
    pub fn next(&self, alloc: Global, count: usize) -> Result<Block, NoMemory>
        ensures empty { IfOk result (λ block. block.newest ≡ []) }
        ensures room { IfOk result (λ block. count ≤ block.spare) }
        ensures kept { IfOk result (λ block. self.now.spare ≤ block.spare) }
    {
        let deltas = self.deltas.capacity() - self.deltas.len();
        let wholes = self.wholes.capacity() - self.wholes.len();
        Block::new(
            alloc,
            count.max(deltas.min(wholes)),
            self.calls,
            self.faults,
        )
    }

    /// Makes room for this many more.
    pub fn reserve(&mut self, count: usize) -> Result<(), NoMemory>
        ensures same { self.new.newest ≡ self.old.newest }
        ensures room { OnOk result (count ≤ self.new.spare) }
        ensures kept { self.old.spare ≤ self.new.spare }
        ensures succeeds { count ≤ self.old.spare → IsOk result }
    {
        self.deltas.reserve(count)?;
        self.wholes.reserve(count)?;
        Ok(())
    }

    /// A walk from the newest entry back.
    pub fn walk(&self, alloc: Global) -> Result<BlockWalk<'_>, NoMemory>
        ensures { IfOk result (λ walk. walk ≡ self.now.newest) }
    {
        let text = self.path.as_str();
        let mut path = Vec::new(alloc);
        path.extend_from_slice(text.as_bytes())?;
        let reader = Reader::new(
            self.tails.as_slice(),
            self.wholes.as_slice(),
            path,
            self.calls,
            self.faults,
        );
        Ok(BlockWalk::new(self.deltas.as_slice(), reader))
    }

    /// Adds an entry in room that there is.
    pub fn push(&mut self, alloc: Global, entry: Entry)
        requires { 0 < self.old.spare }
        ensures added { self.new.newest ≡ entry ∷ self.old.newest }
        ensures room { self.old.spare ≤ self.new.spare + 1 }
    {
        if !self.push_short(alloc, &entry) {
            self.push_whole(entry);
        }
    }

    /// Adds an entry of which little is to be kept, if it is one.
    fn push_short(&mut self, alloc: Global, entry: &Entry) -> bool
        requires { 0 < self.old.spare }
        ensures added { result ≡ true → self.new.newest ≡ entry.now ∷ self.old.newest }
        ensures same { result ≡ false → self.new ≡ self.old }
        ensures room { self.old.spare ≤ self.new.spare + 1 }
    {
        let Some(short) = short_of(entry, self.calls, self.faults) else {
            return false;
        };
        self.push_step(alloc, short)
    }

    /// Adds such an entry.
    fn push_step(&mut self, alloc: Global, short: Short<'_>) -> bool
        requires room { 0 < self.old.spare }
        requires fits { self.old.calls + short.calls < 2 ^ 64 }
        ensures added { result ≡ true
            → self.new.newest ≡ short_entry self.old.calls self.old.faults short.entry ∷ self.old.newest }
        ensures same { result ≡ false → self.new ≡ self.old }
        ensures room { self.old.spare ≤ self.new.spare + 1 }
    {
        let Short { job, calls, did } = short;
        match did {
            ShortDid::Named(kind, path) => self.push_named(alloc, job, calls, kind, path),
            ShortDid::Chunk(count) => self.push_chunk(job, calls, count),
            ShortDid::Barrier => self.push_barrier(job, calls),
        }
    }

    /// Adds a step to a path, if memory serves.
    fn push_named(
        &mut self,
        alloc: Global,
        job: u32,
        calls: u8,
        kind: PathKind,
        path: &Path,
    ) -> bool
        requires room { 0 < self.old.spare }
        requires fits { self.old.calls + calls < 2 ^ 64 }
        ensures added { result ≡ true
            → self.new.newest ≡ step_entry job (did_to kind path.now) (self.old.calls + calls) self.old.faults
            ∷ self.old.newest }
        ensures same { result ≡ false → self.new ≡ self.old }
        ensures room { self.old.spare ≤ self.new.spare + 1 }
    {
        let Ok(text) = path.text(alloc) else {
            return false;
        };
        let newest = text.as_str();
        let Some(difference) = keep_difference(&mut self.tails, self.path.as_str(), newest) else {
            return false;
        };
        let _added = self.deltas.push(Delta::Named {
            job,
            shared: difference.shared,
            tail: difference.tail,
            calls,
            kind,
        });
        self.path = text;
        self.calls += calls as u64;
        true
    }

    /// Adds a step that wrote so many bytes.
    fn push_chunk(&mut self, job: u32, calls: u8, count: u32) -> bool
        requires room { 0 < self.old.spare }
        requires fits { self.old.calls + calls < 2 ^ 64 }
        ensures done { result ≡ true }
        ensures added { self.new.newest
            ≡ step_entry job (Chunk count) (self.old.calls + calls) self.old.faults ∷ self.old.newest }
        ensures room { self.old.spare ≤ self.new.spare + 1 }
    {
        let _added = self.deltas.push(Delta::Chunk { job, count, calls });
        self.calls += calls as u64;
        true
    }

    /// Adds a step that was a barrier.
    fn push_barrier(&mut self, job: u32, calls: u8) -> bool
        requires room { 0 < self.old.spare }
        requires fits { self.old.calls + calls < 2 ^ 64 }
        ensures done { result ≡ true }
        ensures added { self.new.newest ≡ step_entry job Barrier (self.old.calls + calls) self.old.faults
            ∷ self.old.newest }
        ensures room { self.old.spare ≤ self.new.spare + 1 }
    {
        let _added = self.deltas.push(Delta::Barrier { job, calls });
        self.calls += calls as u64;
        true
    }

    /// Adds an entry that stands whole.
    fn push_whole(&mut self, entry: Entry)
        requires { 0 < self.old.spare }
        ensures added { self.new.newest ≡ entry ∷ self.old.newest }
        ensures room { self.old.spare ≤ self.new.spare + 1 }
    {
        let calls = entry.calls;
        let faults = entry.faults;
        let _stands = self.wholes.push(WholeEntry {
            entry,
            calls: self.calls,
            faults: self.faults,
        });
        let _added = self.deltas.push(Delta::Whole);
        self.calls = calls;
        self.faults = faults;
    }
}
