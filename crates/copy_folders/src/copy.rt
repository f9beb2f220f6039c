//! The copy of a folder: its beginning, and its end when its children are decided.
ghost use Rattle.std.specs.Prelude.{◌≡◌, ◌≤◌, true, None};
ghost use Rattle.copy_folders.specs.FolderCopying.{IsSound, at_barrier, closing, copying, is_dirty};
ghost use Rattle.copy_folders.specs.FolderCopying.{is_ready, skipped_stage as skipped_to};
ghost use Rattle.copy_folders.specs.FolderSteps.{Skips, StepsOn, SyncTried, at_sync};

use crate::stage::{FolderStep, NamesState, Stage};
use crate::work::{sync, work};
use job_reports::{Cause, Did, LastStepResult, calls_made, out_of_memory, refusal_in};
use mc_text::Path;
use std::alloc::Global;
use std::marker::Model;
use tree_trait::Tree;

/// The copy of the folder at `source` to `target`. Its children are copied by others, between
/// its beginning and its end.
#[derive(Debug, Drop)]
pub struct FolderCopy {
    source: Path,
    target: Path,
    stage: Stage,
    names: NamesState,
}

impl Model for FolderCopy {
    ghost use Rattle.copy_folders.specs.FolderCopying.{FolderCopying, IsSound, copying};

    ghost Value = { FolderCopying };

    ghost view = { λ c. copying c.source c.target c.stage c.names };

    ghost invariant = { λ c. IsSound c.stage };
}

impl FolderCopy {
    /// The copy of a folder with this mode to a target at which nothing stands.
    pub fn new(source: Path, target: Path, mode: u16) -> FolderCopy
        requires { mode ≤ 0o7777 }
        ensures { result ≡ copying source target (Stage.Make mode) NamesState.Synced }
    {
        FolderCopy {
            source,
            target,
            stage: Stage::Make { mode },
            names: NamesState::Synced,
        }
    }

    /// The copy of a folder to a target at which a folder stands: that one keeps its mode.
    pub fn merging(source: Path, target: Path) -> FolderCopy
        ensures { result ≡ copying source target (Stage.Fill None) NamesState.Synced }
    {
        FolderCopy {
            source,
            target,
            stage: Stage::Fill { owed: None },
            names: NamesState::Synced,
        }
    }

    pub fn source(&self) -> &Path
        ensures { result.now ≡ self.now.source }
    {
        &self.source
    }

    pub fn target(&self) -> &Path
        ensures { result.now ≡ self.now.target }
    {
        &self.target
    }

    /// What is to be done next.
    pub fn stage(&self) -> Stage
        ensures { result ≡ self.now.stage }
    {
        self.stage
    }

    /// Whether the folder has a change of its names or its mode that no sync has brought onto the disk.
    pub fn is_dirty(&self) -> bool
        ensures { result ≡ is_dirty self.now.names }
    {
        match self.names {
            NamesState::Dirty => true,
            NamesState::Synced => false,
        }
    }

    /// Whether the next call is at a barrier, where nothing can be skipped.
    pub fn is_at_barrier(&self) -> bool
        ensures { result ≡ at_barrier self.now.stage }
    {
        match self.stage {
            Stage::Close { owed: None } => true,
            Stage::Close { owed: Some(_) } | Stage::Make { .. } => false,
            Stage::Fill { .. } | Stage::Done => false,
        }
    }

    /// A name in the folder was changed.
    pub fn mark_dirty(&mut self)
        ensures { self.new ≡ record self.old { names = NamesState.Dirty } }
    {
        self.names = NamesState::Dirty;
    }

    /// The folder was synced.
    pub fn mark_synced(&mut self)
        ensures { self.new ≡ record self.old { names = NamesState.Synced } }
    {
        self.names = NamesState::Synced;
    }

    /// Its children are decided.
    pub fn close(&mut self)
        ensures { self.new ≡ record self.old { stage = closing self.old.stage } }
    {
        self.stage = closed(self.stage);
    }

    /// Does the next piece of work, which is at most one call of the tree.
    pub fn step<T: Tree>(&mut self, alloc: Global, tree: &mut T) -> FolderStep
        requires { is_ready self.old.stage ≡ true }
        ensures steps { StepsOn self.old self.new result.did result.calls
            (T.contents tree.old) (T.contents tree.new) (T.fault_count tree.old) (T.fault_count tree.new) }
        ensures sound { IsSound self.new.stage }
    {
        let moved = work(alloc, tree, &self.target, self.stage, self.names);
        self.stage = moved.stage;
        self.names = moved.names;
        FolderStep {
            did: moved.did,
            calls: moved.calls,
        }
    }

    /// Syncs the folder, which may still be filled.
    pub fn sync<T: Tree>(&mut self, alloc: Global, tree: &mut T) -> FolderStep
        ensures steps { StepsOn (at_sync self.old) (record (at_sync self.old) { names = self.new.names })
            result.did result.calls
            (T.contents tree.old) (T.contents tree.new) (T.fault_count tree.old) (T.fault_count tree.new) }
        ensures rest { self.new ≡ record self.old { names = self.new.names } }
    {
        let moved = sync(alloc, tree, &self.target);
        self.names = moved.names;
        FolderStep {
            did: moved.did,
            calls: moved.calls,
        }
    }

    /// The folder is not copied, with all below it, or it keeps the mode that it was made with.
    pub fn skip(&mut self, alloc: Global, cause: Cause) -> Did
        ensures { Skips cause self.old result self.new }
    {
        let Ok(source) = self.source.copy(alloc) else {
            return Did::Troubled(out_of_memory(self.is_at_barrier()));
        };
        self.stage = skipped(self.stage);
        Did::Skipped(source, cause)
    }

    /// The one try to sync the folder of a job that is to end. It takes no memory of its own.
    pub fn try_sync<T: Tree>(&mut self, alloc: Global, tree: &mut T) -> LastStepResult
        ensures { SyncTried self.old result self.new (T.contents tree.old) (T.contents tree.new)
            (T.fault_count tree.old) (T.fault_count tree.new) }
    {
        let answer = tree.sync_folder(alloc, &self.target);
        self.names = NamesState::Synced;
        LastStepResult {
            did: Did::Barrier,
            calls: calls_made(answer),
            left: refusal_in(answer),
        }
    }
}

/// Where a folder stands whose children are decided.
fn closed(stage: Stage) -> Stage
    ensures { result ≡ closing stage }
{
    match stage {
        Stage::Fill { owed } => Stage::Close { owed },
        Stage::Make { mode } => Stage::Make { mode },
        Stage::Close { owed } => Stage::Close { owed },
        Stage::Done => Stage::Done,
    }
}

/// Where a folder stands whose trouble is skipped.
fn skipped(stage: Stage) -> Stage
    ensures { result ≡ skipped_to stage }
{
    match stage {
        Stage::Make { .. } => Stage::Done,
        Stage::Close { .. } => Stage::Close { owed: None },
        Stage::Fill { owed } => Stage::Fill { owed },
        Stage::Done => Stage::Done,
    }
}
