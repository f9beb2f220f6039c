//! The folders that a panel showed.
ghost use Rattle.std.specs.Prelude.{◌≡◌, [], ◌∷◌, drop, OnOk, OnErr, slice_get, option_map};
ghost use Rattle.panel_state.specs.Visits.{visited_folders, turned_folders, folders_on};

use mc_text::{NoMemory, Path};
use std::alloc::Global;
use std::collections::VecDeque;
use std::marker::Model;

/// How many folders are remembered on either side.
const REMEMBERED: usize = 100;

/// To which of the folders that were shown a panel goes: to the one before, or to the one
/// that it went back from last.
#[derive(Clone, Copy, Debug, Drop, PartialEq, Eq)]
pub enum Turn {
    Earlier,
    Later,
}

/// The folders that a panel showed before its present one, and those that it went back
/// from, each the nearest first.
#[derive(Drop)]
pub struct Visits {
    behind: VecDeque<Path>,
    ahead: VecDeque<Path>,
}

impl Model for Visits {
    ghost use Rattle.panel_state.specs.Visits.{FoldersShown};

    ghost Value = { FoldersShown };

    ghost view = { λ v. record { behind = v.behind.items; ahead = v.ahead.items } };
}

impl Visits {
    /// No folder yet. It takes no memory.
    pub fn new(alloc: Global) -> Visits
        ensures { result ≡ record { behind = []; ahead = [] } }
    {
        Visits {
            behind: VecDeque::new(alloc),
            ahead: VecDeque::new(alloc),
        }
    }

    /// The folder that a turn leads to.
    pub fn next(&self, turn: Turn) -> Option<&Path>
        ensures { option_map (λ folder. folder.now) result ≡ slice_get (folders_on turn self.now) 0 }
    {
        match turn {
            Turn::Earlier => self.behind.front(),
            Turn::Later => self.ahead.front(),
        }
    }

    /// Remembers a folder that is left for another one. Those that were gone back from are forgotten, and
    /// so is the oldest of more than a hundred.
    pub fn leave(&mut self, alloc: Global, folder: &Path) -> Result<(), NoMemory>
        ensures done { OnOk result (self.new ≡ visited_folders folder.now self.old) }
        ensures refused { OnErr result (self.new ≡ self.old) }
    {
        let folder = folder.copy(alloc)?;
        self.behind.push_front(folder)?;
        self.behind.truncate(REMEMBERED);
        self.ahead.clear();
        Ok(())
    }

    /// The present folder is left for the one that a turn leads to.
    pub fn turn(&mut self, alloc: Global, turn: Turn, folder: &Path) -> Result<(), NoMemory>
        ensures done { OnOk result (self.new ≡ turned_folders turn folder.now self.old) }
        ensures refused { OnErr result (self.new ≡ self.old) }
    {
        match turn {
            Turn::Earlier => hand_over(alloc, &mut self.behind, &mut self.ahead, folder),
            Turn::Later => hand_over(alloc, &mut self.ahead, &mut self.behind, folder),
        }
    }
}

/// Takes the nearest folder from one side, and remembers the one that is left on the other.
fn hand_over(
    alloc: Global,
    from: &mut VecDeque<Path>,
    onto: &mut VecDeque<Path>,
    folder: &Path,
) -> Result<(), NoMemory>
    ensures taken { OnOk result (from.new.items ≡ drop 1 from.old.items) }
    ensures left { OnOk result (onto.new.items ≡ folder.now ∷ onto.old.items) }
    ensures from_kept { OnErr result (from.new.items ≡ from.old.items) }
    ensures onto_kept { OnErr result (onto.new.items ≡ onto.old.items) }
{
    let folder = folder.copy(alloc)?;
    onto.push_front(folder)?;
    let _ = from.pop_front();
    Ok(())
}
