//! The removal of one folder that a merge has emptied, a call of the tree at each step: it is removed, the
//! folder around is synced, and only then is it finished, so that a folder whose removal is finished
//! doesn't come back. One in which something stayed is kept.
ghost use Rattle.std.specs.Prelude.{◌≡◌, ◌⊎◌, false, true, Err, Some};
ghost use Rattle.job_reports.specs.Paths.{folder_of};
ghost use Rattle.job_reports.specs.Stops.{calls_made_for};
ghost use Rattle.job_answers.specs.Skipping.{holds, kind_in};
ghost use Rattle.emptied_job.specs.Removals.{LiesIn, at_barrier, is_dirty, is_fresh};
ghost use Rattle.emptied_job.specs.Removals.{skipped_stage as skipped_to, begun_removal};
ghost use Rattle.emptied_job.specs.RemovalSteps.{LastRemovalStep, NotRemoved, RemovalSkips, RemovalStep};

use job_answers::{Replies, kind_of};
use job_reports::{Cause, Did, Ending, LastStepResult, StepResult, Trouble, out_of_memory};
use job_unsynced::{ended, last_report, refused, tried, with_call, without_call};
use mc_text::Path;
use std::alloc::Global;
use std::marker::Model;
use tree_trait::{Tree, TreeError};

/// What is to be done next.
#[derive(Clone, Copy, Debug, Drop, PartialEq, Eq)]
pub enum RemovalStage {
    /// The folder is to be removed.
    Remove,
    /// It is gone. The folder around is synced before the end, so that no crash brings it back after the end.
    Sync,
    /// The folder is gone for good. Nothing is left to be done.
    Finish,
    /// The folder stays. Nothing is left to be done.
    PassedOver,
}

/// The removal of one emptied folder.
#[derive(Debug, Drop)]
pub struct FolderRemoval {
    path: Path,
    folder: Path,
    stage: RemovalStage,
}

impl Model for FolderRemoval {
    ghost use Rattle.emptied_job.specs.Removals.{LiesIn, Removing};

    ghost Value = { Removing };

    ghost view = { λ r. record { path = r.path; stage = r.stage } };

    ghost invariant = { λ r. LiesIn r.path r.folder };
}

impl FolderRemoval {
    /// The removal of the folder at `path`, which lies in `folder`.
    pub fn new(path: Path, folder: Path) -> FolderRemoval
        requires { LiesIn path folder }
        ensures { result ≡ begun_removal path }
    {
        FolderRemoval {
            path,
            folder,
            stage: RemovalStage::Remove,
        }
    }

    /// Does the next piece of work, which is at most one call of the tree, where this was
    /// answered to the job's troubles.
    pub fn step<T: Tree>(&mut self, alloc: Global, tree: &mut T, replies: Replies) -> StepResult
        ensures { RemovalStep replies self.old self.new result.did result.calls (T.contents tree.old)
            (T.contents tree.new) (T.fault_count tree.old) (T.fault_count tree.new) }
    {
        match self.stage {
            RemovalStage::Remove => self.remove(alloc, tree, replies),
            RemovalStage::Sync => self.sync(alloc, tree, replies),
            RemovalStage::Finish | RemovalStage::PassedOver => without_call(ended(
                Ending::Finished,
            )),
        }
    }

    /// The folder stays.
    pub fn skip(&mut self, alloc: Global, cause: Cause) -> Did
        ensures { RemovalSkips cause self.old result self.new }
    {
        let Ok(path) = self.path.copy(alloc) else {
            return Did::Troubled(out_of_memory(self.is_at_barrier()));
        };
        self.stage = skipped(self.stage);
        Did::Skipped(path, cause)
    }

    /// Makes the next of the last steps of a job that is to end so: a sync that is owed is tried once.
    pub fn wind_up<T: Tree>(
        &mut self,
        alloc: Global,
        tree: &mut T,
        ending: Ending,
    ) -> LastStepResult
        ensures { LastRemovalStep ending self.old self.new result.did result.calls result.left
            (T.contents tree.old)
            (T.contents tree.new) (T.fault_count tree.old) (T.fault_count tree.new) }
    {
        match self.stage {
            RemovalStage::Sync => self.try_sync(alloc, tree, ending),
            RemovalStage::Remove | RemovalStage::Finish | RemovalStage::PassedOver => last_report(
                ended(ending),
                None,
            ),
        }
    }

    /// The folder that is removed.
    pub fn path(&self) -> &Path
        ensures { result.now ≡ self.now.path }
    {
        &self.path
    }

    /// The one that holds it.
    pub fn folder(&self) -> &Path
        ensures holds { LiesIn self.now.path result.now }
        ensures is { result.now ≡ folder_of self.now.path }
    {
        &self.folder
    }

    /// Whether the folder around has a name less, and no sync has brought that onto the disk.
    pub fn is_dirty(&self) -> bool
        ensures { result ≡ is_dirty self.now.stage }
    {
        match self.stage {
            RemovalStage::Sync => true,
            RemovalStage::Remove | RemovalStage::Finish | RemovalStage::PassedOver => false,
        }
    }

    /// Whether nothing was changed or decided yet.
    pub fn is_fresh(&self) -> bool
        ensures { result ≡ is_fresh self.now.stage }
    {
        match self.stage {
            RemovalStage::Remove => true,
            RemovalStage::Sync | RemovalStage::Finish | RemovalStage::PassedOver => false,
        }
    }

    /// Whether the next call is at a barrier, where nothing can be skipped.
    pub fn is_at_barrier(&self) -> bool
        ensures { result ≡ at_barrier self.now.stage }
    {
        match self.stage {
            RemovalStage::Remove => false,
            RemovalStage::Sync | RemovalStage::Finish | RemovalStage::PassedOver => true,
        }
    }
}

impl FolderRemoval {
    /// Removes the folder. The path of the report comes first: after the call it is
    /// too late to find no memory.
    fn remove<T: Tree>(&mut self, alloc: Global, tree: &mut T, replies: Replies) -> StepResult
        requires stage { self.old.stage ≡ RemovalStage.Remove }
        ensures { RemovalStep replies self.old self.new result.did result.calls (T.contents tree.old)
            (T.contents tree.new) (T.fault_count tree.old) (T.fault_count tree.new) }
    {
        let Ok(path) = self.path.copy(alloc) else {
            return without_call(Did::Troubled(out_of_memory(false)));
        };
        match tree.remove_folder(alloc, &self.path) {
            Ok(()) => {
                self.stage = RemovalStage::Sync;
                with_call(Did::Removed(path))
            }
            Err(error) => self.not_removed(error, path, replies),
        }
    }

    /// The removal was refused. One that found no memory was not made.
    fn not_removed(&mut self, error: TreeError, path: Path, replies: Replies) -> StepResult
        requires { path ≡ self.old.path }
        ensures did { NotRemoved replies self.old error result.did self.new }
        ensures calls { result.calls ≡ calls_made_for (Err error) }
    {
        match error {
            TreeError::Memory => without_call(Did::Troubled(out_of_memory(false))),
            TreeError::NotEmpty => {
                self.stage = RemovalStage::PassedOver;
                with_call(Did::Kept(path))
            }
            error => self.passed_or_troubled(error, path, replies),
        }
    }

    /// It was refused otherwise: the folder is passed over, where troubles of that kind are, or that is told.
    fn passed_or_troubled(&mut self, error: TreeError, path: Path, replies: Replies) -> StepResult
        ensures did { let cause = Cause.Tree error in
            ((holds replies.skips (kind_in cause) ≡ true) × (result.did ≡ Did.Skipped path cause)
            × (self.new ≡ record self.old { stage = RemovalStage.PassedOver }))
            ⊎ ((holds replies.skips (kind_in cause) ≡ false)
            × (result.did ≡ Did.Troubled (record { cause = cause; path = Some path; barrier = false }))
            × (self.new ≡ self.old)) }
        ensures calls { result.calls ≡ 1 }
    {
        let cause = Cause::Tree(error);
        if replies.skips().contains(kind_of(cause)) {
            self.stage = RemovalStage::PassedOver;
            return with_call(Did::Skipped(path, cause));
        }
        with_call(Did::Troubled(Trouble {
            cause,
            path: Some(path),
            barrier: false,
        }))
    }

    /// Syncs the folder in which the name was.
    fn sync<T: Tree>(&mut self, alloc: Global, tree: &mut T, replies: Replies) -> StepResult
        requires stage { self.old.stage ≡ RemovalStage.Sync }
        ensures { RemovalStep replies self.old self.new result.did result.calls (T.contents tree.old)
            (T.contents tree.new) (T.fault_count tree.old) (T.fault_count tree.new) }
    {
        let _replies = replies;
        let owed = self.folder();
        let Ok(folder) = owed.copy(alloc) else {
            return without_call(Did::Troubled(out_of_memory(true)));
        };
        match tree.sync_folder(alloc, owed) {
            Ok(()) => {
                self.stage = RemovalStage::Finish;
                with_call(Did::Barrier)
            }
            Err(error) => refused(error, folder, true),
        }
    }

    /// The one try of a job that is to end.
    fn try_sync<T: Tree>(&mut self, alloc: Global, tree: &mut T, ending: Ending) -> LastStepResult
        requires stage { self.old.stage ≡ RemovalStage.Sync }
        ensures { LastRemovalStep ending self.old self.new result.did result.calls result.left
            (T.contents tree.old)
            (T.contents tree.new) (T.fault_count tree.old) (T.fault_count tree.new) }
    {
        let _ending = ending;
        let answer = tree.sync_folder(alloc, self.folder());
        self.stage = RemovalStage::Finish;
        tried(answer)
    }
}

/// Where a removal stands whose folder stays.
fn skipped(stage: RemovalStage) -> RemovalStage
    ensures { result ≡ skipped_to stage }
{
    match stage {
        RemovalStage::Remove => RemovalStage::PassedOver,
        RemovalStage::Sync => RemovalStage::Sync,
        RemovalStage::Finish => RemovalStage::Finish,
        RemovalStage::PassedOver => RemovalStage::PassedOver,
    }
}
