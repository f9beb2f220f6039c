//! The deletion of a thing with all that lies in it, a name a step, by the machine beside: once each thing
//! is gone or was left, each folder that was changed is synced, and only then is it finished, so that a
//! finished deletion is on the disk.
ghost use Rattle.std.specs.Prelude.{◌≡◌, Some};
ghost use Rattle.mc_text.specs.Routes.{parent_of};
ghost use Rattle.job_reports.specs.Paths.{folder_of};
ghost use Rattle.delete_job.specs.Standing.{at_barrier, is_fresh};
ghost use Rattle.delete_job.specs.Deletions.{begun_deletion};
ghost use Rattle.delete_job.specs.DeletionSteps.{DeletionSkips, DeletionStep, LastDeletionStep, OrPassedOver};

use crate::deletion::Deletion;
use job_answers::Replies;
use job_reports::{Cause, Did, Ending, LastStepResult, StepResult};
use job_unsynced::Dirty;
use mc_text::Path;
use std::alloc::Global;
use std::marker::Model;
use tree_trait::Tree;

/// A deletion, and how many of the dirty folders its last steps have gone through.
#[derive(Debug, Drop)]
pub struct TreeDeletion {
    machine: Deletion,
    tried: usize,
}

impl Model for TreeDeletion {
    ghost use Rattle.std.specs.Prelude.{◌≡◌, Some};
    ghost use Rattle.mc_text.specs.Routes.{parent_of};
    ghost use Rattle.delete_job.specs.Inside.{IsInside};
    ghost use Rattle.delete_job.specs.Deletions.{Deleting};

    ghost Value = { Deleting };

    ghost view = { λ d. record {
      path = d.machine.path;
      stage = d.machine.stage;
      depth = d.machine.depth;
      place = d.machine.walk.place;
      tried = d.tried;
    } };

    ghost invariant = { λ d. (parent_of d.machine.path ≡ Some d.machine.folder) × IsInside d.machine };
}

impl TreeDeletion {
    /// A deletion of the thing at `path`, which lies in `folder`.
    pub fn new(alloc: Global, path: Path, folder: Path) -> TreeDeletion
        requires { parent_of path ≡ Some folder }
        ensures { result ≡ begun_deletion path }
    {
        TreeDeletion {
            machine: Deletion::new(alloc, path, folder),
            tried: 0,
        }
    }

    /// Does the next piece of work, which is at most one changing call of the tree. Where that is in a
    /// trouble of a kind that is skipped, by what was answered, it is passed over.
    pub fn step<T: Tree>(
        &mut self,
        alloc: Global,
        tree: &mut T,
        dirty: &mut Dirty,
        replies: Replies,
    ) -> StepResult
        ensures { DeletionStep replies self.old self.new result.did result.calls dirty.old dirty.new
            (T.contents tree.old)
            (T.contents tree.new) (T.fault_count tree.old) (T.fault_count tree.new) }
    {
        if self.machine.is_at_barrier() {
            self.machine.sync(alloc, tree, dirty)
        } else {
            let worked = self.machine.work(alloc, tree, dirty);
            or_passed_over(&mut self.machine, alloc, replies, worked)
        }
    }

    /// What is in trouble is not deleted.
    pub fn skip(&mut self, alloc: Global, cause: Cause) -> Did
        ensures { DeletionSkips cause self.old result self.new }
    {
        self.machine.skip(alloc, cause)
    }

    /// Makes the next of the last steps of a job that is to end so: each folder that may have
    /// been changed is tried once.
    pub fn wind_up<T: Tree>(
        &mut self,
        alloc: Global,
        tree: &mut T,
        ending: Ending,
        dirty: &mut Dirty,
    ) -> LastStepResult
        ensures { LastDeletionStep ending self.old self.new result.did result.calls result.left
            dirty.old dirty.new
            (T.contents tree.old) (T.contents tree.new) (T.fault_count tree.old) (T.fault_count tree.new) }
    {
        self.machine
            .try_next(alloc, tree, dirty, &mut self.tried, ending)
    }

    /// The thing that is deleted.
    pub fn path(&self) -> &Path
        ensures { result.now ≡ self.now.path }
    {
        &self.machine.path
    }

    /// The folder that holds it.
    pub fn folder(&self) -> &Path
        ensures { result.now ≡ folder_of self.now.path }
    {
        &self.machine.folder
    }

    /// Whether nothing was changed yet.
    pub fn is_fresh(&self) -> bool
        ensures { result ≡ is_fresh self.now.stage }
    {
        self.machine.is_fresh()
    }

    /// Whether the next call is at a barrier, where nothing can be skipped.
    pub fn is_at_barrier(&self) -> bool
        ensures { result ≡ at_barrier self.now.stage }
    {
        self.machine.is_at_barrier()
    }
}

/// What a step has worked, or what it is in trouble with is passed over, where troubles
/// of that kind are skipped.
fn or_passed_over(
    machine: &mut Deletion,
    alloc: Global,
    replies: Replies,
    worked: StepResult,
) -> StepResult
    ensures { OrPassedOver replies.skips worked machine.old machine.new result }
{
    match replies.skips().passed_cause(&worked.did) {
        None => worked,
        Some(cause) => StepResult {
            did: machine.skip(alloc, cause),
            calls: worked.calls,
        },
    }
}
