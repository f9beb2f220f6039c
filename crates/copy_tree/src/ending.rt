//! The last steps of a copy that is to end early.
ghost use Rattle.std.specs.Prelude.{◌≡◌, ◌≤◌, None, Some, true};
ghost use Rattle.copy_link.specs.LinkCopying.{is_removable};
ghost use Rattle.copy_tree.specs.Ending.{FileWinds, FoldersWind, IsWindable};
ghost use Rattle.copy_tree.specs.Ending.{LinkWinds, WindsAfter, WindsAt, stays_if};
ghost use Rattle.copy_folders.specs.Levels.{dirtied_levels};
ghost use Rattle.copy_tree.specs.Standing.{seen_copy};

use crate::copy::TreeCopy;
use crate::item::ItemAtWork;
use copy_file::FileCopy;
use copy_link::{LinkCopy, Removal};
use job_reports::{Did, Ending, LastStepResult};
use mc_text::Path;
use std::alloc::Global;
use std::mem;
use tree_trait::Tree;

impl TreeCopy {
    /// Makes the next of the last steps of a job that is to end so: the part is removed, if it can be; each
    /// folder that is dirty is tried once to be synced, the inner ones first; and then it ends. None of
    /// them takes memory of its own.
    pub fn wind_up<T: Tree>(
        &mut self,
        alloc: Global,
        tree: &mut T,
        ending: Ending,
    ) -> LastStepResult
        requires windable { IsWindable self.old.item }
        ensures winds { WindsAt self.old.item ending (seen_copy self.old) (seen_copy self.new) result
            (T.contents tree.old) (T.contents tree.new) (T.fault_count tree.old) (T.fault_count tree.new) }
        ensures windable { IsWindable self.new.item }
    {
        match mem::replace(&mut self.item, ItemAtWork::Next) {
            ItemAtWork::Next => self.wind_folders(alloc, tree, ending, None),
            ItemAtWork::File(copy) => self.wind_file(alloc, tree, ending, copy),
            ItemAtWork::Link(copy) => self.wind_link(alloc, tree, ending, copy),
            ItemAtWork::Stays(part) => self.wind_folders(alloc, tree, ending, Some(part)),
        }
    }

    /// A file's part is removed, or it stays, and the folder was tried.
    fn wind_file<T: Tree>(
        &mut self,
        alloc: Global,
        tree: &mut T,
        ending: Ending,
        copy: FileCopy,
    ) -> LastStepResult
        ensures winds { FileWinds ending copy (seen_copy self.old) (seen_copy self.new) result
            (T.contents tree.old) (T.contents tree.new) (T.fault_count tree.old) (T.fault_count tree.new) }
        ensures windable { IsWindable self.new.item }
    {
        let mut copy = copy;
        let last = copy.wind_up(alloc, tree, ending);
        self.stack.mark_synced();
        self.stack.mark_dirty_if(copy.is_dirty());
        self.keep_part(copy.into_part());
        last
    }

    /// A part that stays is remembered.
    fn keep_part(&mut self, part: Option<Path>)
        ensures kept { seen_copy self.new ≡ record (seen_copy self.old) { item = stays_if part } }
        ensures windable { IsWindable self.new.item }
    {
        match part {
            Some(part) => self.item = ItemAtWork::Stays(part),
            None => self.item = ItemAtWork::Next,
        }
    }
    /// A link's part is removed; or it stays, and the next folder is tried, or all ends.
    fn wind_link<T: Tree>(
        &mut self,
        alloc: Global,
        tree: &mut T,
        ending: Ending,
        copy: LinkCopy,
    ) -> LastStepResult
        requires free { self.old.item ≡ ItemAtWork.Next }
        requires removable { is_removable copy.stage ≡ true }
        ensures winds { LinkWinds ending copy (seen_copy self.old) (seen_copy self.new) result
            (T.contents tree.old) (T.contents tree.new) (T.fault_count tree.old) (T.fault_count tree.new) }
        ensures windable { IsWindable self.new.item }
    {
        let mut copy = copy;
        let tried = copy.try_removal(alloc, tree);
        let part = copy.into_part();
        match tried.removal {
            Removal::Cleaned => self.tell_cleaned(part, tried.calls),
            Removal::Stays(_) => self.wind_on(alloc, tree, ending, part, tried.calls),
        }
    }

    /// The part is gone.
    fn tell_cleaned(&mut self, part: Path, calls: u64) -> LastStepResult
        requires free { self.old.item ≡ ItemAtWork.Next }
        ensures said { result ≡ record { did = Did.Cleaned part; calls = calls; left = None } }
        ensures stands { seen_copy self.new
            ≡ record (seen_copy self.old) { levels = dirtied_levels true self.old.stack.levels } }
        ensures windable { IsWindable self.new.item }
    {
        self.stack.mark_dirty_if(true);
        LastStepResult {
            did: Did::Cleaned(part),
            calls,
            left: None,
        }
    }

    /// The part stays, after so many calls.
    fn wind_on<T: Tree>(
        &mut self,
        alloc: Global,
        tree: &mut T,
        ending: Ending,
        part: Path,
        calls: u64,
    ) -> LastStepResult
        requires few { calls ≤ 1 }
        ensures winds { WindsAfter calls ending part (seen_copy self.old) (seen_copy self.new) result
            (T.contents tree.old) (T.contents tree.new) (T.fault_count tree.old) (T.fault_count tree.new) }
        ensures windable { IsWindable self.new.item }
    {
        let next = self.wind_folders(alloc, tree, ending, Some(part));
        LastStepResult {
            did: next.did,
            calls: calls + next.calls,
            left: next.left,
        }
    }

    /// The next folder that is dirty is tried, or all ends.
    fn wind_folders<T: Tree>(
        &mut self,
        alloc: Global,
        tree: &mut T,
        ending: Ending,
        part: Option<Path>,
    ) -> LastStepResult
        ensures winds { FoldersWind ending part (seen_copy self.old) (seen_copy self.new) result
            (T.contents tree.old) (T.contents tree.new) (T.fault_count tree.old) (T.fault_count tree.new) }
        ensures few { result.calls ≤ 1 }
        ensures windable { IsWindable self.new.item }
    {
        if self.stack.leave_clean() {
            self.keep_part(part);
            return self.stack.try_folder(alloc, tree);
        }
        self.item = ItemAtWork::Next;
        LastStepResult {
            did: Did::Ended { ending, part },
            calls: 0,
            left: None,
        }
    }
}
