//! The beginning and the end of a folder.
ghost use Rattle.std.specs.Prelude.{◌≡◌, ◌⊎◌, ◌≤◌, false, true};
ghost use Rattle.copy_folders.specs.Levels.{is_around_dirty};
ghost use Rattle.copy_tree.specs.Standing.{due, seen_copy};
ghost use Rattle.copy_tree.specs.TreeCopySteps.{AdvancesEnd, Counts, FolderEnds, FolderMakes, IsWorkable};
ghost use Rattle.copy_tree.specs.TreeCopySteps.{LeavesOrFinishes, RunsOut, SyncsAround, has_debt};
ghost use Rattle.copy_tree.specs.Taking.{IsInReach};

use crate::copy::TreeCopy;
use crate::due::Due;
use crate::item::ItemAtWork;
use crate::report::{stage_after, stopped, told};
use copy_folders::FolderCopy;
use job_reports::{Did, Ending, Pair, StepResult, out_of_memory};
use mc_text::Names;
use std::alloc::Global;
use tree_trait::Tree;
use tree_walk::Opened;

impl TreeCopy {
    /// Makes a folder, and goes into it. The room for that comes first.
    pub(crate) fn make_folder<T: Tree>(
        &mut self,
        alloc: Global,
        tree: &mut T,
        pair: Pair,
        names: Names,
        mode: u16,
    ) -> StepResult
        requires free { self.old.item ≡ ItemAtWork.Next }
        requires reach { IsInReach self.old.stack.levels.left (Due.Thing pair) }
        requires mode { mode ≤ 0o7777 }
        ensures works { RunsOut (seen_copy self.old) (seen_copy self.new) result.did (T.contents tree.old)
            (T.contents tree.new)
            ⊎ FolderMakes pair names mode (seen_copy self.old) (seen_copy self.new) result.did
            (T.contents tree.old) (T.contents tree.new) }
        ensures counts { Counts result.did result.calls (T.contents tree.old) (T.contents tree.new)
            (T.fault_count tree.old) (T.fault_count tree.new) }
        ensures workable { IsWorkable self.new.item }
    {
        let Ok(source) = pair.source.copy(alloc) else {
            return stopped(out_of_memory(false));
        };
        let Ok(()) = self.stack.reserve() else {
            return stopped(out_of_memory(false));
        };
        let mut copy = FolderCopy::new(pair.source, pair.target, mode);
        let stepped = copy.step(alloc, tree);
        let did = told(stepped.did);
        self.stage = stage_after(&did, self.stage);
        self.stack.enter_made(Opened::new(source, names), copy);
        StepResult {
            did,
            calls: stepped.calls,
        }
    }

    /// The folder around is synced, so that the one that is worked, which was made, is on the disk.
    pub(crate) fn sync_around<T: Tree>(&mut self, alloc: Global, tree: &mut T) -> StepResult
        requires free { self.old.item ≡ ItemAtWork.Next }
        requires dirty { is_around_dirty self.old.stack.levels.around ≡ true }
        ensures works { SyncsAround (seen_copy self.old) (seen_copy self.new) result.did (T.contents tree.old)
            (T.contents tree.new) }
        ensures counts { Counts result.did result.calls (T.contents tree.old) (T.contents tree.new)
            (T.fault_count tree.old) (T.fault_count tree.new) }
        ensures workable { IsWorkable self.new.item }
    {
        let stepped = self.stack.sync_around(alloc, tree);
        let did = told(stepped.did);
        self.stage = stage_after(&did, self.stage);
        StepResult {
            did,
            calls: stepped.calls,
        }
    }

    /// The folder's children are decided: what it owes comes next, or it is left.
    pub(crate) fn end_folder<T: Tree>(&mut self, alloc: Global, tree: &mut T) -> Option<StepResult>
        requires free { self.old.item ≡ ItemAtWork.Next }
        requires next { due (seen_copy self.old) ≡ Due.End }
        requires synced { is_around_dirty self.old.stack.levels.around ≡ false }
        ensures advances { AdvancesEnd (seen_copy self.old) (seen_copy self.new) result
            (T.contents tree.old) (T.contents tree.new) (T.fault_count tree.old) (T.fault_count tree.new) }
        ensures workable { IsWorkable self.new.item }
    {
        self.stack.close();
        if self.stack.owes() {
            Some(self.finish_folder(alloc, tree))
        } else {
            self.leave_folder()
        }
    }

    /// The mode or the sync that a folder owes.
    fn finish_folder<T: Tree>(&mut self, alloc: Global, tree: &mut T) -> StepResult
        requires free { self.old.item ≡ ItemAtWork.Next }
        requires owes { has_debt (seen_copy self.old) ≡ true }
        ensures works { FolderEnds (seen_copy self.old) (seen_copy self.new) result.did (T.contents tree.old)
            (T.contents tree.new) }
        ensures counts { Counts result.did result.calls (T.contents tree.old) (T.contents tree.new)
            (T.fault_count tree.old) (T.fault_count tree.new) }
        ensures workable { IsWorkable self.new.item }
    {
        let stepped = self.stack.step_folder(alloc, tree);
        let did = told(stepped.did);
        self.stage = stage_after(&did, self.stage);
        StepResult {
            did,
            calls: stepped.calls,
        }
    }

    /// The folder around is worked again; the outermost is the last.
    fn leave_folder(&mut self) -> Option<StepResult>
        requires free { self.old.item ≡ ItemAtWork.Next }
        ensures left { LeavesOrFinishes (seen_copy self.old) (seen_copy self.new) result }
        ensures workable { IsWorkable self.new.item }
    {
        if self.stack.leave() {
            return None;
        }
        Some(StepResult {
            did: Did::Ended {
                ending: Ending::Finished,
                part: None,
            },
            calls: 0,
        })
    }
}
