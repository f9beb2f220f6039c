//! The entries of a history, in blocks: one more block is begun where the newest is full, so that growing
//! copies nothing that stands.
ghost use Rattle.std.specs.Prelude.{◌≡◌, ◌+◌, ◌-◌, ◌≤◌, ◌<◌, ◌^◌, ◌++◌, [], ◌∷◌};
ghost use Rattle.std.specs.Prelude.{length, reverse, IfOk, IsOk, OnOk};
ghost use Rattle.session_packed.specs.Blocks.{entries_of};

use crate::block::Block;
use crate::walks::{NewestFirst, OldestFirst};
use mc_text::NoMemory;
use session_entries::Entry;
use std::alloc::Global;
use std::marker::Model;
use std::mem;

/// The most entries: no machine has memory for more, and so no count of theirs passes its last value.
const MOST_ENTRIES: usize = 1 << 56;

/// The entries of a history. Contracts see them newest first, and how many more find room.
#[derive(Debug, Drop)]
pub struct PackedEntries {
    alloc: Global,
    older: Vec<Block>,
    newest: Block,
    count: usize,
}

impl Model for PackedEntries {
    ghost use Rattle.std.specs.Prelude.{◌≡◌, ◌-◌, ◌^◌, ◌≤◌, ◌++◌, length, min, reverse};
    ghost use Rattle.session_packed.specs.Blocks.{Packed, entries_of};

    ghost Value = { Packed };

    ghost view = { λ p. record {
      newest = p.newest.newest ++ entries_of (reverse p.older.items);
      spare = min p.newest.spare (2 ^ 56 - p.count);
    } };

    ghost invariant = { λ p. (p.count ≡ length (p.newest.newest ++ entries_of (reverse p.older.items)))
        × (p.count ≤ 2 ^ 56) };
}

impl PackedEntries {
    /// No entries, and room for one.
    pub fn new(alloc: Global) -> Result<PackedEntries, NoMemory>
        ensures empty { IfOk result (λ entries. entries.newest ≡ []) }
        ensures room { IfOk result (λ entries. 1 ≤ entries.spare) }
    {
        Ok(PackedEntries {
            alloc,
            older: Vec::new(alloc),
            newest: Block::new(alloc, 1, 0, 0)?,
            count: 0,
        })
    }

    /// None, and no room. It takes no memory.
    pub fn none(alloc: Global) -> PackedEntries
        ensures { result.newest ≡ [] }
    {
        PackedEntries {
            alloc,
            older: Vec::new(alloc),
            newest: Block::none(alloc),
            count: 0,
        }
    }

    /// How many there are.
    pub fn len(&self) -> usize
        ensures count { result ≡ length self.now.newest }
        ensures few { result ≤ 2 ^ 56 }
        ensures spare { self.now.spare ≤ 2 ^ 56 - result }
    {
        self.count
    }

    /// Makes room for this many more. Room that is there already is never refused; there is none where there
    /// would be more than 2^56 entries.
    pub fn reserve(&mut self, count: usize) -> Result<(), NoMemory>
        ensures same { self.new.newest ≡ self.old.newest }
        ensures room { OnOk result (count ≤ self.new.spare) }
        ensures bounded { OnOk result (length self.new.newest + count ≤ 2 ^ 56) }
        ensures kept { self.old.spare ≤ self.new.spare }
        ensures succeeds { count ≤ self.old.spare → IsOk result }
    {
        if self.count.saturating_add(count) > MOST_ENTRIES {
            return Err(NoMemory);
        }
        if self.newest.is_full(count) {
            // Where there is no memory for one more, the newest block may still have the room.
            let _begun = begin_block(self.alloc, &mut self.older, &mut self.newest, count);
        }
        self.newest.reserve(count)?;
        Ok(())
    }

    /// Adds an entry in room that there is. It takes time that doesn't grow with their count.
    pub fn push(&mut self, entry: Entry)
        requires { 0 < self.old.spare }
        ensures added { self.new.newest ≡ entry ∷ self.old.newest }
        ensures room { self.old.spare ≤ self.new.spare + 1 }
    {
        self.newest.push(self.alloc, entry);
        self.count += 1;
    }

    /// A walk from the newest back.
    pub fn newest_first(&self, alloc: Global) -> Result<NewestFirst<'_>, NoMemory>
        ensures { IfOk result (λ walk. walk ≡ self.now.newest) }
    {
        NewestFirst::new(alloc, self.older.as_slice(), &self.newest)
    }

    /// A walk from the oldest on.
    #[tactic(auto, using(crate::proofs::Upwards::upwards))]
    pub fn oldest_first(&self, alloc: Global) -> OldestFirst<'_>
        ensures { result ≡ reverse self.now.newest }
    {
        OldestFirst::new(alloc, self.older.as_slice(), &self.newest)
    }
}

/// Begins a block for so many entries behind the newest one, with at least as much room. Without memory for
/// it all stays as it is.
fn begin_block(
    alloc: Global,
    older: &mut Vec<Block>,
    newest: &mut Block,
    count: usize,
) -> Result<(), NoMemory>
    ensures same { newest.new.newest ++ entries_of (reverse older.new.items)
        ≡ newest.old.newest ++ entries_of (reverse older.old.items) }
    ensures kept { newest.old.spare ≤ newest.new.spare }
{
    older.reserve(1)?;
    let fresh = newest.next(alloc, count)?;
    let full = mem::replace(newest, fresh);
    let _kept = older.push(full);
    Ok(())
}
