//! A step of a deletion: it goes down to an item, and works on that.
ghost use Rattle.std.specs.Prelude.{◌≡◌, ◌<◌, ◌≤◌, false, IfNone, IfSome, true};
ghost use Rattle.delete_job.specs.Standing.{at_barrier, rank_at};
ghost use Rattle.delete_job.specs.Descending.{Enters, Meets};
ghost use Rattle.delete_job.specs.TreeDeletionSteps.{Advances, WorkSteps};

use crate::deletion::Deletion;
use crate::meeting::Met;
use job_reports::{Did, StepResult};
use job_unsynced::{Dirty, without_call};
use std::alloc::Global;
use tree_trait::Tree;

impl Deletion {
    /// Goes on up to something that is to be reported.
    pub fn work<T: Tree>(&mut self, alloc: Global, tree: &mut T, dirty: &mut Dirty) -> StepResult
        requires going { at_barrier self.old.stage ≡ false }
        ensures { WorkSteps self.old self.new result.did result.calls dirty.old dirty.new
            (T.contents tree.old) (T.contents tree.new) (T.fault_count tree.old) (T.fault_count tree.new) }
    {
        loop {
            if let Some(stepped) = self.advance(alloc, tree, dirty) {
                return stepped;
            }
        }
    }

    /// Goes into a folder, or does what is reported.
    fn advance<T: Tree>(
        &mut self,
        alloc: Global,
        tree: &mut T,
        dirty: &mut Dirty,
    ) -> Option<StepResult>
        requires going { at_barrier self.old.stage ≡ false }
        ensures { Advances self.old self.new result dirty.old dirty.new
            (T.contents tree.old) (T.contents tree.new) (T.fault_count tree.old) (T.fault_count tree.new) }
    {
        match self.meet(alloc, tree) {
            Ok(Met::Entered) => None,
            Ok(Met::Thing(path)) => Some(self.remove_thing(alloc, tree, dirty, path)),
            Ok(Met::End) => Some(self.end_folder(alloc, tree, dirty)),
            Err(trouble) => Some(without_call(Did::Troubled(trouble))),
        }
    }
}
