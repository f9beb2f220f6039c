//! Walks over the entries of a history.
ghost use Rattle.std.specs.Prelude.{◌≡◌, ◌++◌, [], ◌∷◌, length, map, reverse, IfOk, OnErr, MatchOption};
ghost use Rattle.session_packed.specs.Blocks.{entries_of, entries_up};
ghost use Rattle.session_packed.specs.Walks.{entry_in};

use crate::block::Block;
use crate::met::Met;
use crate::walk::BlockWalk;
use mc_text::NoMemory;
use std::alloc::Global;
use std::marker::Model;
use std::slice;

/// A walk from the newest entry back. Contracts see the entries that are left, the newest first.
#[derive(Drop)]
pub struct NewestFirst<'a> {
    block: BlockWalk<'a>,
    older: &'a [Block],
}

impl<'a> Model for NewestFirst<'a> {
    ghost use Rattle.std.specs.Prelude.{List, ◌++◌, reverse};
    ghost use Rattle.session_entries.specs.declared.history.Entry.{Entry};
    ghost use Rattle.session_packed.specs.Blocks.{entries_of};

    ghost Value = { List Entry };

    ghost view = { λ w. w.block ++ entries_of (reverse w.older.now) };
}

impl<'a> NewestFirst<'a> {
    /// A walk over these blocks, of which the last one stands alone.
    pub fn new(
        alloc: Global,
        older: &'a [Block],
        newest: &'a Block,
    ) -> Result<NewestFirst<'a>, NoMemory>
        ensures { IfOk result (λ walk. walk ≡ newest.now.newest ++ entries_of (reverse older.now)) }
    {
        Ok(NewestFirst {
            block: newest.walk(alloc)?,
            older,
        })
    }

    /// The next entry, or none behind the oldest. Without memory for it the walk stays where it is. It
    /// takes time that doesn't grow with their count.
    pub fn next(&mut self, alloc: Global) -> Result<Option<Met<'a>>, NoMemory>
        ensures met { IfOk result (λ met.
            MatchOption met ((self.old ≡ []) × (self.new ≡ [])) (λ met. self.old ≡ entry_in met ∷ self.new)) }
        ensures same { OnErr result (self.new ≡ self.old) }
    {
        loop {
            if let Some(met) = self.block.next(alloc)? {
                return Ok(Some(met));
            }
            let Some((block, older)) = self.older.split_last() else {
                return Ok(None);
            };
            self.block = block.walk(alloc)?;
            self.older = older;
        }
    }
}

/// A walk from the oldest entry on, which holds those of one block made anew. Contracts see the entries
/// that are left, the oldest first.
#[derive(Drop)]
pub struct OldestFirst<'a> {
    met: Vec<Met<'a>>,
    newer: &'a [Block],
    /// The newest block, if it wasn't reached.
    newest: &'a [Block],
}

impl<'a> Model for OldestFirst<'a> {
    ghost use Rattle.std.specs.Prelude.{List, ◌++◌, map, reverse};
    ghost use Rattle.session_entries.specs.declared.history.Entry.{Entry};
    ghost use Rattle.session_packed.specs.Blocks.{entries_up};
    ghost use Rattle.session_packed.specs.Walks.{entry_in};

    ghost Value = { List Entry };

    ghost view = { λ w. reverse (map entry_in w.met.items)
        ++ (entries_up w.newer.now ++ entries_up w.newest.now) };
}

impl<'a> OldestFirst<'a> {
    /// A walk over these blocks, of which the last one stands alone.
    pub fn new(alloc: Global, newer: &'a [Block], newest: &'a Block) -> OldestFirst<'a>
        ensures { result ≡ entries_up newer.now ++ reverse newest.now.newest }
    {
        OldestFirst {
            met: Vec::new(alloc),
            newer,
            newest: slice::from_ref(newest),
        }
    }

    /// The next entry, or none behind the newest. Without memory for it the walk stays where it is. Its
    /// time doesn't grow with their count.
    pub fn next(&mut self, alloc: Global) -> Result<Option<Met<'a>>, NoMemory>
        ensures met { IfOk result (λ met.
            MatchOption met ((self.old ≡ []) × (self.new ≡ [])) (λ met. self.old ≡ entry_in met ∷ self.new)) }
        ensures same { OnErr result (self.new ≡ self.old) }
    {
        loop {
            if let Some(met) = self.met.pop() {
                return Ok(Some(met));
            }
            if let Some((block, newer)) = self.newer.split_first() {
                self.met = entries_in(alloc, block)?;
                self.newer = newer;
                continue;
            }
            let Some((block, none)) = self.newest.split_first() else {
                return Ok(None);
            };
            self.met = entries_in(alloc, block)?;
            self.newest = none;
        }
    }
}

/// All entries of a block, the newest first.
fn entries_in(alloc: Global, block: &Block) -> Result<Vec<Met<'_>>, NoMemory>
    ensures { IfOk result (λ met. map entry_in met.items ≡ block.now.newest) }
{
    let mut walk = block.walk(alloc)?;
    let mut all = Vec::new(alloc);
    while let Some(met) = walk.next(alloc)? {
        all.push(met)?;
    }
    Ok(all)
}
