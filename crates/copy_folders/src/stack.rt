//! The folders that are open while a tree is copied.
ghost use Rattle.std.specs.Prelude.{◌≡◌, ◌+◌, ◌<◌, ◌≤◌, ◌==◌, ◌∷◌, [], drop, length};
ghost use Rattle.std.specs.Prelude.{false, true, IfNone, IfSome, OnErr, OnOk};
ghost use Rattle.copy_folders.specs.FolderCopying.{is_dirty, is_ready};
ghost use Rattle.copy_folders.specs.FolderSteps.{Skips, StepsOn, SyncTried};
ghost use Rattle.tree_walk.specs.Places.{is_empty, is_one_of};
ghost use Rattle.copy_folders.specs.Levels.{IsLeft, LeavesClean, NearestSyncs, levels_closed};
ghost use Rattle.copy_folders.specs.Levels.{coming, dirtied_levels, emptied_levels, entered_levels};
ghost use Rattle.copy_folders.specs.Levels.{is_around_dirty, is_sync_next, made_levels, outermost};
ghost use Rattle.copy_folders.specs.Levels.{owed_at, owes, passed_levels, target_around, with_copy};

use crate::around::{is_nearest_dirty, sync_nearest, target_of_nearest};
use crate::copy::FolderCopy;
use crate::level::{COPY_LEVELS, Level};
use crate::stage::{FolderStep, NamesState, Stage};
use job_reports::{Cause, Did, LastStepResult};
use mc_text::{Name, Names, NoMemory, Path};
use std::alloc::Global;
use std::marker::Model;
use std::mem;
use tree_trait::Tree;
use tree_walk::{Around, Opened};

/// The folder that is worked, and those around it. The outermost is the folder that holds what is copied.
#[derive(Debug, Drop)]
pub struct Stack {
    inner: Level,
    around: Around<Level>,
    left: u32,
}

impl Model for Stack {
    ghost use Rattle.std.specs.Prelude.{◌+◌, ◌≤◌, length};
    ghost use Rattle.copy_folders.specs.Levels.{Stacked};

    ghost Value = { Stacked };

    ghost view = { λ s. record {
      levels = record {
        inner = s.inner;
        around = s.around.nearest;
        left = s.left;
      };
      spare = s.around.spare;
    } };

    ghost invariant = { λ s. s.left + length s.around.nearest ≤ 257 };
}

impl Stack {
    /// One folder is open. It takes no memory.
    pub fn new(alloc: Global, names: Opened, copy: FolderCopy) -> Stack
        ensures { result.levels ≡ outermost names copy }
    {
        Stack {
            inner: Level { names, copy },
            around: Around::new(alloc),
            left: COPY_LEVELS,
        }
    }

    /// The path of the source of the folder that is worked.
    pub fn source(&self) -> &Path
        ensures { result.now ≡ self.now.levels.inner.copy.source }
    {
        self.inner.copy.source()
    }

    /// The path of its target.
    pub fn target(&self) -> &Path
        ensures { result.now ≡ self.now.levels.inner.copy.target }
    {
        self.inner.copy.target()
    }

    /// What is to be done next at the folder itself.
    pub fn stage(&self) -> Stage
        ensures { result ≡ self.now.levels.inner.copy.stage }
    {
        self.inner.copy.stage()
    }

    /// The name that is met next there.
    pub fn next_name(&self) -> Option<&Name>
        ensures some { IfSome result (λ name.
            self.now.levels.inner.names.names ≡ name.now ∷ drop 1 self.now.levels.inner.names.names) }
        ensures none { IfNone result (self.now.levels.inner.names.names ≡ []) }
    {
        self.inner.names.first()
    }

    /// Whether a thing that is yet to be met there has this name at its target. What is
    /// copied has the name `top`.
    #[tactic(auto, using(crate::proofs::Coming::coming_outside, crate::proofs::Coming::coming_inside))]
    pub fn is_coming(&self, top: &Name, name: &Name) -> bool
        ensures { result ≡ is_one_of name.now
            (coming top.now self.now.levels.inner.names self.now.levels.around) }
    {
        if self.is_outermost() {
            self.is_top_coming(top, name)
        } else {
            self.inner.names.has(name)
        }
    }

    /// Whether the outermost has a name that is yet to be met, and `top` is this name.
    #[tactic(auto, using(crate::proofs::Coming::none_coming))]
    fn is_top_coming(&self, top: &Name, name: &Name) -> bool
        ensures { result ≡ is_one_of name.now (coming top.now self.now.levels.inner.names []) }
    {
        match self.next_name() {
            Some(_) => top.same(name),
            None => false,
        }
    }

    /// Whether no folder is around that one.
    pub fn is_outermost(&self) -> bool
        ensures { result ≡ is_empty self.now.levels.around }
    {
        self.around.is_empty()
    }

    /// Whether the copy may not go down from here.
    pub fn is_deepest(&self) -> bool
        ensures { result ≡ (self.now.levels.left == 0) }
    {
        self.left == 0
    }

    /// Whether a name or the mode of its target was changed, and not synced.
    pub fn is_dirty(&self) -> bool
        ensures { result ≡ is_dirty self.now.levels.inner.copy.names }
    {
        self.inner.copy.is_dirty()
    }

    /// Whether the folder around is dirty: the name of the one that is worked isn't on the disk yet.
    pub fn is_around_dirty(&self) -> bool
        ensures { result ≡ is_around_dirty self.now.levels.around }
    {
        is_nearest_dirty(&self.around)
    }

    /// The path of the target of the folder around.
    pub fn target_around(&self) -> &Path
        requires outer { is_empty self.now.levels.around ≡ false }
        ensures { result.now ≡ target_around self.now.levels.around }
    {
        target_of_nearest(&self.around)
    }

    /// Whether a sync is next, which can't be skipped.
    pub fn is_at_barrier(&self) -> bool
        ensures { result ≡ is_sync_next self.now.levels }
    {
        if self.is_around_dirty() {
            return true;
        }
        self.inner.copy.is_at_barrier()
    }

    /// Syncs the folder around the one that is worked.
    pub fn sync_around<T: Tree>(&mut self, alloc: Global, tree: &mut T) -> FolderStep
        requires dirty { is_around_dirty self.old.levels.around ≡ true }
        ensures syncs { NearestSyncs self.old.levels.around self.new.levels.around result.did result.calls
            (T.contents tree.old) (T.contents tree.new) (T.fault_count tree.old) (T.fault_count tree.new) }
        ensures rest { self.new.levels ≡ record self.old.levels { around = self.new.levels.around } }
    {
        sync_nearest(&mut self.around, alloc, tree)
    }

    /// Makes room to go down a level.
    pub fn reserve(&mut self) -> Result<(), NoMemory>
        ensures same { self.new.levels ≡ self.old.levels }
        ensures room { OnOk result (1 ≤ self.new.spare) }
    {
        self.around.reserve()
    }

    /// The next name is done with: it was copied, or it was left.
    pub fn pass(&mut self, left: bool)
        ensures passed { self.new.levels ≡ passed_levels left self.old.levels }
    {
        self.inner.names.pass();
        self.inner.names.note(left);
    }

    /// All names that are left there are passed over.
    pub fn pass_rest(&mut self, alloc: Global) -> Result<(), NoMemory>
        ensures emptied { OnOk result (self.new.levels ≡ emptied_levels self.old.levels) }
        ensures same { OnErr result (self.new.levels ≡ self.old.levels) }
    {
        let path = self.inner.names.path().copy(alloc)?;
        let mut names = Opened::new(path, Names(Vec::new(alloc)));
        names.note(true);
        self.inner.names = names;
        Ok(())
    }

    /// The end of the folder that is worked is left: it keeps the mode that it was made with.
    pub fn skip_folder(&mut self, alloc: Global, cause: Cause) -> Did
        ensures skips { Skips cause self.old.levels.inner.copy result self.new.levels.inner.copy }
        ensures rest { self.new.levels ≡ with_copy self.new.levels.inner.copy self.old.levels }
    {
        self.inner.copy.skip(alloc, cause)
    }

    /// A name in the target of the folder that is worked was changed, if one was.
    pub fn mark_dirty_if(&mut self, changed: bool)
        ensures dirtied { self.new.levels ≡ dirtied_levels changed self.old.levels }
    {
        if changed {
            self.inner.copy.mark_dirty();
        }
    }

    /// The target of the folder that is worked was synced.
    pub fn mark_synced(&mut self)
        ensures { self.new.levels
            ≡ with_copy (record self.old.levels.inner.copy { names = NamesState.Synced }) self.old.levels }
    {
        self.inner.copy.mark_synced();
    }

    /// Its children are decided.
    pub fn close(&mut self)
        ensures closed { self.new.levels ≡ levels_closed self.old.levels }
    {
        self.inner.copy.close();
    }

    /// Whether something is still owed to its target.
    pub fn owes(&self) -> bool
        ensures { result ≡ owes self.now.levels.inner.copy.stage self.now.levels.inner.copy.names }
    {
        owes_at(self.inner.copy.stage(), self.inner.copy.is_dirty())
    }

    /// Does the next piece of work at the folder itself.
    pub fn step_folder<T: Tree>(&mut self, alloc: Global, tree: &mut T) -> FolderStep
        requires { is_ready self.old.levels.inner.copy.stage ≡ true }
        ensures steps { StepsOn self.old.levels.inner.copy self.new.levels.inner.copy result.did result.calls
            (T.contents tree.old) (T.contents tree.new) (T.fault_count tree.old) (T.fault_count tree.new) }
        ensures rest { self.new.levels ≡ with_copy self.new.levels.inner.copy self.old.levels }
    {
        self.inner.copy.step(alloc, tree)
    }

    /// Goes down into the folder that has the next name, in room that there is, where it was made.
    pub fn enter_made(&mut self, names: Opened, copy: FolderCopy)
        requires deeper { 1 ≤ self.old.levels.left }
        requires room { 0 < self.old.spare }
        ensures entered { self.new.levels ≡ made_levels copy.stage names copy self.old.levels }
    {
        match copy.stage() {
            Stage::Fill { .. } => self.enter(names, copy),
            Stage::Make { .. } | Stage::Close { .. } | Stage::Done => {}
        }
    }

    fn enter(&mut self, names: Opened, copy: FolderCopy)
        requires deeper { 1 ≤ self.old.levels.left }
        requires room { 0 < self.old.spare }
        ensures entered { self.new.levels ≡ entered_levels names copy (dirtied_levels true self.old.levels) }
    {
        self.inner.copy.mark_dirty();
        self.inner.names.pass();
        let around = mem::replace(&mut self.inner, Level { names, copy });
        self.around.add(around);
        self.left -= 1;
    }

    /// The folder that is worked is done with. Whether there is one around it, which is worked again.
    pub fn leave(&mut self) -> bool
        ensures left { result ≡ true → IsLeft self.old.levels self.new.levels }
        ensures last { result ≡ false → (self.old.levels.around ≡ []) × (self.new.levels ≡ self.old.levels) }
    {
        let Some(outer) = self.around.take() else {
            return false;
        };
        self.inner = outer;
        self.left += 1;
        true
    }
}

impl Stack {
    /// Folders that are not dirty are left, from the inner ones on. Whether one is dirty; else
    /// the outermost is worked.
    pub fn leave_clean(&mut self) -> bool
        ensures left { LeavesClean self.old.levels self.new.levels result }
    {
        loop {
            if self.is_dirty() {
                return true;
            }
            if !self.leave() {
                return false;
            }
        }
    }

    /// The one try to sync the folder that is worked. It takes no memory of its own.
    pub fn try_folder<T: Tree>(&mut self, alloc: Global, tree: &mut T) -> LastStepResult
        ensures tried { SyncTried self.old.levels.inner.copy result self.new.levels.inner.copy
            (T.contents tree.old) (T.contents tree.new)
            (T.fault_count tree.old) (T.fault_count tree.new) }
        ensures rest { self.new.levels ≡ with_copy self.new.levels.inner.copy self.old.levels }
    {
        self.inner.copy.try_sync(alloc, tree)
    }
}

/// Whether something is owed to a folder that is so far, and dirty or not.
fn owes_at(stage: Stage, dirty: bool) -> bool
    ensures { result ≡ owed_at stage dirty }
{
    match stage {
        Stage::Make { .. } => true,
        Stage::Close { owed: Some(_) } => true,
        Stage::Close { owed: None } => dirty,
        Stage::Fill { .. } => false,
        Stage::Done => false,
    }
}
