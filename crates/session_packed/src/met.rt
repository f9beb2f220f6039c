//! What is met on a walk over entries.
ghost use Rattle.std.specs.Prelude.{◌≡◌};
ghost use Rattle.session_packed.specs.Walks.{entry_in};

use session_entries::Entry;

/// An entry that is met on a walk: where it stands whole, or made anew.
#[derive(Drop)]
pub enum Met<'a> {
    Whole(&'a Entry),
    Made(Entry),
}

impl Met<'_> {
    /// The entry.
    pub fn entry(&self) -> &Entry
        ensures { result.now ≡ entry_in self.now }
    {
        match self {
            Met::Whole(entry) => entry,
            Met::Made(entry) => entry,
        }
    }
}
