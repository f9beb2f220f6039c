//! A walk over the entries of a block, from the newest back.
ghost use Rattle.std.specs.Prelude.{◌≡◌, [], ◌∷◌, reverse, IfOk, OnErr, MatchOption};
ghost use Rattle.session_packed.specs.ReadingBack.{entries_in, AreReadable};
ghost use Rattle.session_packed.specs.Walks.{entry_in};

use crate::delta::Delta;
use crate::met::Met;
use crate::reader::Reader;
use mc_text::NoMemory;
use std::alloc::Global;
use std::marker::Model;

/// A walk. Contracts see the entries that are left, the newest first.
#[derive(Drop)]
pub struct BlockWalk<'a> {
    deltas: &'a [Delta],
    reader: Reader<'a>,
}

impl<'a> Model for BlockWalk<'a> {
    ghost use Rattle.std.specs.Prelude.{List, reverse};
    ghost use Rattle.session_entries.specs.declared.history.Entry.{Entry};
    ghost use Rattle.session_packed.specs.ReadingBack.{entries_in, AreReadable};

    ghost Value = { List Entry };

    ghost view = { λ w. entries_in (reverse w.deltas.now) w.reader };

    ghost invariant = { λ w. AreReadable (reverse w.deltas.now) w.reader };
}

impl<'a> BlockWalk<'a> {
    /// A walk over what is kept of entries, by a reader in the state after them.
    pub fn new(deltas: &'a [Delta], reader: Reader<'a>) -> BlockWalk<'a>
        requires { AreReadable (reverse deltas.now) reader }
        ensures { result ≡ entries_in (reverse deltas.now) reader.entry }
    {
        BlockWalk { deltas, reader }
    }

    /// The next entry, or none behind the oldest. Without memory for it the walk stays where it is.
    pub fn next(&mut self, alloc: Global) -> Result<Option<Met<'a>>, NoMemory>
        ensures met { IfOk result (λ met.
            MatchOption met ((self.old ≡ []) × (self.new ≡ [])) (λ met. self.old ≡ entry_in met ∷ self.new)) }
        ensures same { OnErr result (self.new ≡ self.old) }
    {
        let Some((delta, older)) = self.deltas.split_last() else {
            return Ok(None);
        };
        let met = self.reader.back(alloc, *delta)?;
        self.deltas = older;
        Ok(Some(met))
    }
}
