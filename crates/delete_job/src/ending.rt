//! The syncs of what was changed.
ghost use Rattle.delete_job.specs.TreeDeletionSteps.{LastSteps, SyncSteps};

use crate::deletion::Deletion;
use job_reports::{Did, Ending, LastStepResult, StepResult, out_of_memory};
use job_unsynced::{Dirty, ended, last_report, refused, tried, with_call, without_call};
use std::alloc::Global;
use tree_trait::Tree;

impl Deletion {
    /// Syncs a folder that was changed, or where there is none the deletion is finished.
    pub fn sync<T: Tree>(&self, alloc: Global, tree: &mut T, dirty: &mut Dirty) -> StepResult
        ensures { SyncSteps self.now result.did result.calls dirty.old dirty.new
            (T.contents tree.old) (T.contents tree.new) (T.fault_count tree.old) (T.fault_count tree.new) }
    {
        let Some(folder) = dirty.first_of(&self.folder, &self.path) else {
            return without_call(ended(Ending::Finished));
        };
        let Ok(folder) = folder.copy(alloc) else {
            return without_call(Did::Troubled(out_of_memory(true)));
        };
        match tree.sync_folder(alloc, &folder) {
            Ok(()) => {
                dirty.remove(&folder);
                with_call(Did::Barrier)
            }
            Err(error) => refused(error, folder, true),
        }
    }

    /// A last step of a job that is to end so: the next folder that was changed is tried once, from this
    /// one on; where there is none, it ends.
    pub fn try_next<T: Tree>(
        &self,
        alloc: Global,
        tree: &mut T,
        dirty: &mut Dirty,
        from: &mut usize,
        ending: Ending,
    ) -> LastStepResult
        ensures { LastSteps ending self.now from.old from.new result.did result.calls result.left
            dirty.old dirty.new
            (T.contents tree.old) (T.contents tree.new) (T.fault_count tree.old) (T.fault_count tree.new) }
    {
        let Some(at) = dirty.first_from(*from, &self.folder, &self.path) else {
            return last_report(ended(ending), None);
        };
        match tree.sync_folder(alloc, dirty.get(at)) {
            Ok(()) => {
                dirty.remove_at(at);
                *from = at;
                tried(Ok(()))
            }
            Err(error) => {
                *from = at + 1;
                tried(Err(error))
            }
        }
    }
}
