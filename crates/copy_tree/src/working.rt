//! A step of a tree's copy.
ghost use Rattle.std.specs.Prelude.{◌≡◌, None, true};
ghost use Rattle.copy_file.specs.LastSteps.{left_at};
ghost use Rattle.copy_link.specs.LinkCopying.{is_ready};
ghost use Rattle.copy_tree.specs.Parts.{IsPartPlace};
ghost use Rattle.copy_tree.specs.Standing.{seen_copy};
ghost use Rattle.copy_tree.specs.Progress.{link_progress, progress};
ghost use Rattle.copy_tree.specs.TreeCopySteps.{Advances, CopySteps, Counts, FileWorks, IsWorkable};
ghost use Rattle.copy_tree.specs.TreeCopySteps.{LinkWorks, noted_copy, copy_after_progress, stays_ready};

use crate::copy::TreeCopy;
use crate::item::ItemAtWork;
use crate::parts::{PartPlaces, see_part};
use crate::progress::{Progress, progress_of, progress_of_link};
use crate::report::stage_after;
use copy_file::FileCopy;
use copy_link::LinkCopy;
use job_answers::Replies;
use job_reports::{Did, PartTest, StepResult};
use std::alloc::Global;
use std::mem;
use tree_trait::Tree;

impl TreeCopy {
    /// Goes on up to something that is to be reported.
    pub fn step<T: Tree, P: PartTest>(
        &mut self,
        alloc: Global,
        tree: &mut T,
        parts: &P,
        replies: Replies,
    ) -> StepResult
        requires workable { IsWorkable self.old.item }
        ensures steps { CopySteps (P.is_free parts.now) replies (seen_copy self.old) (seen_copy self.new)
            result.did result.calls
            (T.contents tree.old) (T.contents tree.new) (T.fault_count tree.old) (T.fault_count tree.new) }
        ensures workable { IsWorkable self.new.item }
    {
        loop {
            if let Some(stepped) = self.advance(alloc, tree, parts, replies) {
                return stepped;
            }
        }
    }

    /// Leaves a folder that owes nothing, or does what is reported.
    fn advance<T: Tree, P: PartTest>(
        &mut self,
        alloc: Global,
        tree: &mut T,
        parts: &P,
        replies: Replies,
    ) -> Option<StepResult>
        requires workable { IsWorkable self.old.item }
        ensures advances { Advances (P.is_free parts.now) replies (seen_copy self.old)
            (seen_copy self.new) result
            (T.contents tree.old) (T.contents tree.new) (T.fault_count tree.old) (T.fault_count tree.new) }
        ensures workable { IsWorkable self.new.item }
    {
        match mem::replace(&mut self.item, ItemAtWork::Next) {
            ItemAtWork::Next => self.go_on(alloc, tree, parts, replies),
            ItemAtWork::File(copy) => Some(self.work_file(alloc, tree, parts, copy)),
            ItemAtWork::Link(copy) => Some(self.work_link(alloc, tree, copy)),
            ItemAtWork::Stays(_) => unreachable!(),
        }
    }

    /// A step of a file's copy.
    pub(crate) fn work_file<T: Tree, P: PartTest>(
        &mut self,
        alloc: Global,
        tree: &mut T,
        parts: &P,
        copy: FileCopy,
    ) -> StepResult
        requires free { self.old.item ≡ ItemAtWork.Next }
        requires ready { left_at copy.stage ≡ None }
        ensures works { FileWorks (IsPartPlace (P.is_free parts.now) (seen_copy self.old)) copy
            (seen_copy self.old) (seen_copy self.new) result.did (T.contents tree.old) (T.contents tree.new) }
        ensures counts { Counts result.did result.calls (T.contents tree.old) (T.contents tree.new)
            (T.fault_count tree.old) (T.fault_count tree.new) }
        ensures workable { IsWorkable self.new.item }
    {
        let mut copy = copy;
        let places = PartPlaces {
            given: parts,
            top: &self.name,
            stack: &self.stack,
        };
        let stepped = copy.step(alloc, tree, &places);
        see_part(&copy);
        self.note(&stepped.did, copy.is_dirty());
        self.put_file(copy);
        stepped
    }

    /// A step of a link's copy.
    pub(crate) fn work_link<T: Tree>(
        &mut self,
        alloc: Global,
        tree: &mut T,
        copy: LinkCopy,
    ) -> StepResult
        requires free { self.old.item ≡ ItemAtWork.Next }
        requires ready { is_ready copy.stage copy.folder ≡ true }
        ensures works { LinkWorks copy (seen_copy self.old) (seen_copy self.new) result.did
            (T.contents tree.old) (T.contents tree.new) }
        ensures counts { Counts result.did result.calls (T.contents tree.old) (T.contents tree.new)
            (T.fault_count tree.old) (T.fault_count tree.new) }
        ensures workable { IsWorkable self.new.item }
    {
        let mut copy = copy;
        let stepped = copy.step(alloc, tree);
        self.note(&stepped.did, copy.is_dirty());
        self.put_link(copy);
        stepped
    }

    /// Keeps what was reported, and whether a name was changed.
    pub(crate) fn note(&mut self, did: &Did, changed: bool)
        ensures { seen_copy self.new ≡ noted_copy did.now changed (seen_copy self.old) }
    {
        self.stage = stage_after(did, self.stage);
        self.stack.mark_dirty_if(changed);
    }

    /// The copy of a file goes on, or the file is passed or taken up anew.
    pub(crate) fn put_file(&mut self, copy: FileCopy)
        requires free { self.old.item ≡ ItemAtWork.Next }
        requires ready { left_at copy.stage ≡ None }
        ensures settled { seen_copy self.new
            ≡ copy_after_progress (progress copy.stage) (ItemAtWork.File copy) (seen_copy self.old) }
        ensures workable { IsWorkable self.new.item }
    {
        match progress_of(&copy) {
            Progress::UnderWay => self.item = ItemAtWork::File(copy),
            Progress::Decided => self.stack.pass(false),
            Progress::Anew => {}
        }
    }

    /// The copy of a link goes on, or the link is passed or taken up anew.
    pub(crate) fn put_link(&mut self, copy: LinkCopy)
        requires free { self.old.item ≡ ItemAtWork.Next }
        requires ready { stays_ready copy.stage ≡ true }
        ensures settled { seen_copy self.new
            ≡ copy_after_progress (link_progress copy.stage) (ItemAtWork.Link copy) (seen_copy self.old) }
        ensures workable { IsWorkable self.new.item }
    {
        match progress_of_link(&copy) {
            Progress::UnderWay => self.item = ItemAtWork::Link(copy),
            Progress::Decided => self.stack.pass(false),
            Progress::Anew => {}
        }
    }
}
