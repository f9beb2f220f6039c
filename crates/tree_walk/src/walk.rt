//! Where a walk stands: the folder that is worked, those around it, and how many levels it may go down.
ghost use Rattle.std.specs.Prelude.{◌≡◌, ◌+◌, ◌<◌, ◌≤◌, ◌==◌, ◌∷◌, ◌^◌, []};
ghost use Rattle.std.specs.Prelude.{drop, length, suc, IfNone, IfSome, OnOk};
ghost use Rattle.tree_walk.specs.Places.{IsLeft, entered_place, is_outermost};
ghost use Rattle.tree_walk.specs.Places.{opened_folder, passed_place, unopened_walk};
ghost use Rattle.tree_walk.specs.Ranks.{rank, rank_around, weight};

use crate::around::Around;
use crate::opened::Opened;
use mc_text::{Name, Names, NoMemory, Path};
use std::alloc::Global;
use std::marker::Model;
use std::mem;

/// A walk goes down so many levels below its outermost folder.
pub const WALK_LEVELS: u32 = 256;

/// A walk over what lies in a folder, the outermost.
#[derive(Debug, Drop)]
pub struct Walk {
    inner: Opened,
    around: Around<Opened>,
    left: u32,
}

impl Model for Walk {
    ghost use Rattle.std.specs.Prelude.{◌+◌, ◌≤◌, length};
    ghost use Rattle.tree_walk.specs.Places.{Walking};

    ghost Value = { Walking };

    ghost view = { λ w. record {
      place = record { inner = w.inner; around = w.around.nearest; left = w.left };
      spare = w.around.spare;
    } };

    ghost invariant = { λ w. w.left + length w.around.nearest ≤ 256 };
}

impl Walk {
    /// A walk that is to begin: its outermost folder isn't open yet. It takes no memory.
    pub fn new(alloc: Global) -> Walk
        ensures { result.place ≡ unopened_walk }
    {
        Walk {
            inner: Opened::nothing(alloc),
            around: Around::new(alloc),
            left: WALK_LEVELS,
        }
    }

    /// Opens the outermost folder.
    pub fn open(&mut self, folder: Path, names: Names)
        ensures opened { self.new.place ≡ record self.old.place { inner = opened_folder folder names } }
        ensures falls { rank self.new.place
            < weight (suc self.old.place.left) + rank_around (suc self.old.place.left) self.old.place.around }
    {
        self.inner = Opened::new(folder, names);
    }

    /// The path of the folder that is worked.
    pub fn folder(&self) -> &Path
        ensures { result.now ≡ self.now.place.inner.path }
    {
        self.inner.path()
    }

    /// The name that is met next there.
    pub fn next_name(&self) -> Option<&Name>
        ensures some { IfSome result (λ name.
            self.now.place.inner.names ≡ name.now ∷ drop 1 self.now.place.inner.names) }
        ensures none { IfNone result (self.now.place.inner.names ≡ []) }
    {
        self.inner.first()
    }

    /// Whether something in that folder was left.
    pub fn is_spared(&self) -> bool
        ensures { result ≡ self.now.place.inner.spared }
    {
        self.inner.is_spared()
    }

    /// Whether no folder is around that one.
    pub fn is_outermost(&self) -> bool
        ensures { result ≡ is_outermost self.now.place }
    {
        self.around.is_empty()
    }

    /// Whether it may not go down from here.
    pub fn is_deepest(&self) -> bool
        ensures { result ≡ (self.now.place.left == 0) }
    {
        self.left == 0
    }

    /// Makes room to go down a level.
    pub fn reserve(&mut self) -> Result<(), NoMemory>
        ensures same { self.new.place ≡ self.old.place }
        ensures room { OnOk result (1 ≤ self.new.spare) }
    {
        self.around.reserve()
    }

    /// The next name is done with: what it leads to is gone, or was left.
    pub fn pass(&mut self, left: bool)
        ensures passed { self.new.place ≡ passed_place left self.old.place }
        ensures falls { 1 ≤ length self.old.place.inner.names → rank self.new.place < rank self.old.place }
    {
        self.inner.pass();
        self.inner.note(left);
    }

    /// Goes down into the folder that has the next name, in room that there is. The folder around waits
    /// until this one is done with.
    pub fn enter(&mut self, path: Path, names: Names)
        requires deeper { 1 ≤ self.old.place.left }
        requires room { 0 < self.old.spare }
        ensures entered { self.new.place ≡ entered_place path names self.old.place }
        ensures falls { 1 ≤ length self.old.place.inner.names → rank self.new.place < rank self.old.place }
    {
        self.inner.pass();
        let around = mem::replace(&mut self.inner, Opened::new(path, names));
        self.around.add(around);
        self.left -= 1;
    }

    /// The folder that is worked is done with: it is gone, or was left. Its path, unless it is the outermost.
    pub fn leave(&mut self, left: bool) -> Option<Path>
        ensures some { IfSome result (λ path. (path ≡ self.old.place.inner.path)
            × IsLeft left self.old.place self.new.place) }
        ensures falls { IfSome result (λ _path. rank self.new.place < rank self.old.place) }
        ensures none { IfNone result ((self.old.place.around ≡ []) × (self.new.place ≡ self.old.place)) }
    {
        let Some(outer) = self.around.take() else {
            return None;
        };
        let inner = mem::replace(&mut self.inner, outer);
        self.inner.note(left);
        self.left += 1;
        Some(inner.into_path())
    }
}
