//! The folders around the one that is worked.
ghost use Rattle.std.specs.Prelude.{◌≡◌, ◌≤◌, ◌<◌, ◌∷◌, [], drop, IfSome, IfNone, OnOk};
ghost use Rattle.tree_walk.specs.Places.{is_empty};

use mc_text::NoMemory;
use std::alloc::Global;
use std::marker::Model;

/// Open folders, of which contracts see the nearest first, and how many more find room. What is kept of
/// a folder is the caller's.
#[derive(Debug, Drop)]
pub struct Around<F> {
    folders: Vec<F>,
}

impl<F> Model for Around<F> {
    ghost use Rattle.std.specs.Prelude.{◌-◌, reverse, vec_len};
    ghost use Rattle.std.specs.Vec.{vec_capacity};
    ghost use Rattle.tree_walk.specs.Places.{FoldersAround, around_code};

    ghost Value = { FoldersAround F };

    ghost coded = { around_code F.code };

    ghost view = { λ a. record {
      nearest = reverse a.folders.items;
      spare = vec_capacity a.folders - vec_len a.folders;
    } };
}

impl<F: Drop> Around<F> {
    /// None yet. It takes no memory.
    pub fn new(alloc: Global) -> Around<F>
        ensures { result.nearest ≡ [] }
    {
        Around {
            folders: Vec::new(alloc),
        }
    }

    /// Whether there is none.
    pub fn is_empty(&self) -> bool
        ensures { result ≡ is_empty self.now.nearest }
    {
        match self.nearest() {
            Some(_) => false,
            None => true,
        }
    }

    /// The nearest.
    pub fn nearest(&self) -> Option<&F>
        ensures some { IfSome result (λ folder. self.now.nearest ≡ folder.now ∷ drop 1 self.now.nearest) }
        ensures none { IfNone result (self.now.nearest ≡ []) }
    {
        self.folders.last()
    }

    /// Makes room for one more.
    pub fn reserve(&mut self) -> Result<(), NoMemory>
        ensures same { self.new.nearest ≡ self.old.nearest }
        ensures room { OnOk result (1 ≤ self.new.spare) }
    {
        self.folders.reserve(1)?;
        Ok(())
    }

    /// One more, in room that there is.
    pub fn add(&mut self, folder: F)
        requires room { 0 < self.old.spare }
        ensures added { self.new.nearest ≡ folder ∷ self.old.nearest }
    {
        let _added = self.folders.push(folder);
    }

    /// The nearest is taken. Its room stays.
    pub fn take(&mut self) -> Option<F>
        ensures some { IfSome result (λ folder. self.old.nearest ≡ folder ∷ self.new.nearest) }
        ensures room { IfSome result (λ _folder. 0 < self.new.spare) }
        ensures none { IfNone result ((self.old.nearest ≡ []) × (self.new.nearest ≡ [])) }
    {
        self.folders.pop()
    }
}
