//! The history of a session, as a run hands it back.
ghost use Rattle.std.specs.Prelude.{◌≡◌, [], length, reverse, IfOk};

use mc_text::NoMemory;
use session_packed::{NewestFirst, OldestFirst, PackedEntries};
use std::alloc::Global;
use std::marker::Model;

/// Some entries, the oldest first.
#[derive(Debug, Drop)]
pub struct Entries(pub PackedEntries);

impl Model for Entries {
    ghost use Rattle.std.specs.Prelude.{List, reverse};
    ghost use Rattle.session_entries.specs.declared.history.Entry.{Entry};

    ghost Value = { List Entry };

    ghost view = { λ l. reverse l.0.newest };
}

impl Entries {
    /// None. It takes no memory.
    pub fn none(alloc: Global) -> Entries
        ensures { result ≡ [] }
    {
        Entries(PackedEntries::none(alloc))
    }
}

/// The history of a session: how many jobs it began, and its entries.
#[derive(Debug, Drop)]
pub struct History {
    pub started: u64,
    pub entries: Entries,
}
