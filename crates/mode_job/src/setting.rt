//! The setting of one thing's mode.
ghost use Rattle.std.specs.Prelude.{◌≡◌, ◌≤◌, Some};
ghost use Rattle.mc_text.specs.Routes.{parent_of};
ghost use Rattle.job_reports.specs.Paths.{folder_of};
ghost use Rattle.mode_job.specs.Settings.{at_barrier, is_dirty, is_fresh};
ghost use Rattle.mode_job.specs.Settings.{setting, skipped_stage as skipped_to};
ghost use Rattle.mode_job.specs.SettingSteps.{SettingSkips, StepsOn, Winds};

use crate::work::{try_sync, work};
use job_answers::Replies;
use job_reports::{Cause, Did, Ending, LastStepResult, StepResult, out_of_memory};
use mc_text::Path;
use std::alloc::Global;
use std::marker::Model;
use tree_trait::Tree;

/// What is to be done next.
#[derive(Clone, Copy, Debug, Drop, PartialEq, Eq)]
pub enum Stage {
    /// The mode is to be given.
    Give,
    /// It was given. The thing itself is synced before the end, so that no crash brings the old
    /// mode back after the end.
    Sync,
    /// Nothing is left to be done.
    Done,
}

/// The setting of the mode of the thing at `path`, a file or a folder. What lies in it keeps its mode,
/// and no link is followed.
#[derive(Debug, Drop)]
pub struct ModeSetting {
    path: Path,
    folder: Path,
    mode: u16,
    stage: Stage,
}

impl Model for ModeSetting {
    ghost use Rattle.std.specs.Prelude.{◌≡◌, ◌≤◌, Some};
    ghost use Rattle.mc_text.specs.Routes.{parent_of};
    ghost use Rattle.mode_job.specs.Settings.{Setting, setting};

    ghost Value = { Setting };

    ghost view = { λ s. setting s.path s.mode s.stage };

    ghost invariant = { λ s. (s.mode ≤ 0o7777) × (parent_of s.path ≡ Some s.folder) };
}

impl ModeSetting {
    /// The setting of a mode of twelve bits, of a thing that lies in this folder.
    pub fn new(path: Path, folder: Path, mode: u16) -> ModeSetting
        requires within { parent_of path ≡ Some folder }
        requires bits { mode ≤ 0o7777 }
        ensures { result ≡ setting path mode Stage.Give }
    {
        ModeSetting {
            path,
            folder,
            mode,
            stage: Stage::Give,
        }
    }

    /// Does the next piece of work, which is at most one changing call of the tree. What is refused is
    /// tried again by the next step, but where troubles of its kind are passed over, by what was answered.
    pub fn step<T: Tree>(&mut self, alloc: Global, tree: &mut T, replies: Replies) -> StepResult
        ensures { StepsOn replies self.old self.new result.did result.calls
            (T.contents tree.old) (T.contents tree.new) (T.fault_count tree.old) (T.fault_count tree.new) }
    {
        let moved = work(alloc, tree, &self.path, self.mode, self.stage, replies);
        self.stage = moved.stage;
        StepResult {
            did: moved.did,
            calls: moved.calls,
        }
    }

    /// The thing keeps its mode.
    pub fn skip(&mut self, alloc: Global, cause: Cause) -> Did
        ensures { SettingSkips cause self.old result self.new }
    {
        let Ok(path) = self.path.copy(alloc) else {
            return Did::Troubled(out_of_memory(self.is_at_barrier()));
        };
        self.stage = skipped(self.stage);
        Did::Skipped(path, cause)
    }

    /// Makes the next of the last steps of a job that is to end so: a sync that is owed is tried once.
    pub fn wind_up<T: Tree>(
        &mut self,
        alloc: Global,
        tree: &mut T,
        ending: Ending,
    ) -> LastStepResult
        ensures { Winds ending self.old self.new result (T.contents tree.old) (T.contents tree.new)
            (T.fault_count tree.old) (T.fault_count tree.new) }
    {
        if self.is_dirty() {
            self.stage = Stage::Done;
            return try_sync(alloc, tree, &self.path);
        }
        LastStepResult {
            did: Did::Ended { ending, part: None },
            calls: 0,
            left: None,
        }
    }

    /// The thing whose mode is set.
    pub fn path(&self) -> &Path
        ensures { result.now ≡ self.now.path }
    {
        &self.path
    }

    /// The folder that holds it.
    pub fn folder(&self) -> &Path
        ensures { result.now ≡ folder_of self.now.path }
    {
        &self.folder
    }

    /// Whether the mode was given, and no sync has brought it onto the disk.
    pub fn is_dirty(&self) -> bool
        ensures { result ≡ is_dirty self.now.stage }
    {
        match self.stage {
            Stage::Sync => true,
            Stage::Give | Stage::Done => false,
        }
    }

    /// Whether nothing was changed yet.
    pub fn is_fresh(&self) -> bool
        ensures { result ≡ is_fresh self.now.stage }
    {
        match self.stage {
            Stage::Give => true,
            Stage::Sync | Stage::Done => false,
        }
    }

    /// Whether the next call is at a barrier, where nothing can be skipped.
    pub fn is_at_barrier(&self) -> bool
        ensures { result ≡ at_barrier self.now.stage }
    {
        match self.stage {
            Stage::Give => false,
            Stage::Sync | Stage::Done => true,
        }
    }
}

/// Where a setting stands whose trouble is skipped.
fn skipped(stage: Stage) -> Stage
    ensures { result ≡ skipped_to stage }
{
    match stage {
        Stage::Give => Stage::Done,
        Stage::Sync => Stage::Sync,
        Stage::Done => Stage::Done,
    }
}
