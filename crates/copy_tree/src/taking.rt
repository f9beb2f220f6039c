//! The next thing is taken up, or the end of a folder is worked.
ghost use Rattle.std.specs.Prelude.{◌≡◌, ◌≤◌, ◌⊎◌, ◌^◌, false, true, length, IfOk};
ghost use Rattle.tree_trait.specs.Change.{current};
ghost use Rattle.tree_trait.specs.Answers.{IfKnown};
ghost use Rattle.copy_file.specs.Copying.{begun_copy as file_begun, places};
ghost use Rattle.copy_file.specs.Looking.{HasRange};
ghost use Rattle.copy_file.specs.declared.stage.Stage.TheVariants as FileStage;
ghost use Rattle.copy_folders.specs.Levels.{is_around_dirty, passed_levels};
ghost use Rattle.copy_tree.specs.Parts.{IsPartPlace};
ghost use Rattle.copy_tree.specs.Standing.{due, seen_copy};
ghost use Rattle.copy_tree.specs.TreeCopySteps.{AdvancesIn, AdvancesNext, Counts, FileBegins, IsWorkable};
ghost use Rattle.copy_tree.specs.TreeCopySteps.{LinkWorks, RunsOut, TakesNext, is_top, link_begun};
ghost use Rattle.copy_tree.specs.Taking.{IsInReach, IsSound, IsTaken, MayTake};

use crate::asking::Asks;
use crate::copy::TreeCopy;
use crate::due::Due;
use crate::item::ItemAtWork;
use crate::looking::{Taken, look_at_pair};
use crate::parts::{PartPlaces, see_part, see_path};
use crate::report::stopped;
use copy_file::{CopyPaths as Places, FileCopy, SourceFacts, choose_part};
use copy_link::LinkCopy;
use job_answers::Replies;
use job_reports::{Did, Pair, PartTest, Question, StepResult, Transfer, out_of_memory};
use mc_text::{Names, NoMemory, Path};
use std::alloc::Global;
use tree_trait::Tree;

impl TreeCopy {
    /// A folder that was made is brought onto the disk; else the next name comes, or the end of
    /// the folder that is worked.
    pub(crate) fn go_on<T: Tree, P: PartTest>(
        &mut self,
        alloc: Global,
        tree: &mut T,
        parts: &P,
        replies: Replies,
    ) -> Option<StepResult>
        requires free { self.old.item ≡ ItemAtWork.Next }
        ensures advances { AdvancesNext (IsPartPlace (P.is_free parts.now) (seen_copy self.old)) replies
            (seen_copy self.old) (seen_copy self.new) result
            (T.contents tree.old) (T.contents tree.new) (T.fault_count tree.old) (T.fault_count tree.new) }
        ensures workable { IsWorkable self.new.item }
    {
        if self.stack.is_around_dirty() {
            Some(self.sync_around(alloc, tree))
        } else {
            self.take_next(alloc, tree, parts, replies)
        }
    }

    /// The next name, or the end of the folder that is worked.
    fn take_next<T: Tree, P: PartTest>(
        &mut self,
        alloc: Global,
        tree: &mut T,
        parts: &P,
        replies: Replies,
    ) -> Option<StepResult>
        requires free { self.old.item ≡ ItemAtWork.Next }
        requires synced { is_around_dirty self.old.stack.levels.around ≡ false }
        ensures advances { AdvancesIn (IsPartPlace (P.is_free parts.now) (seen_copy self.old)) replies
            (seen_copy self.old) (seen_copy self.new) result
            (T.contents tree.old) (T.contents tree.new) (T.fault_count tree.old) (T.fault_count tree.new) }
        ensures workable { IsWorkable self.new.item }
    {
        match self.due(alloc) {
            Ok(next) => self.take_due(alloc, tree, parts, replies, next),
            Err(trouble) => Some(stopped(trouble)),
        }
    }

    fn take_due<T: Tree, P: PartTest>(
        &mut self,
        alloc: Global,
        tree: &mut T,
        parts: &P,
        replies: Replies,
        next: Due,
    ) -> Option<StepResult>
        requires free { self.old.item ≡ ItemAtWork.Next }
        requires synced { is_around_dirty self.old.stack.levels.around ≡ false }
        requires next { next ≡ due (seen_copy self.old) }
        requires reach { IsInReach self.old.stack.levels.left next }
        ensures advances { AdvancesIn (IsPartPlace (P.is_free parts.now) (seen_copy self.old)) replies
            (seen_copy self.old) (seen_copy self.new) result
            (T.contents tree.old) (T.contents tree.new) (T.fault_count tree.old) (T.fault_count tree.new) }
        ensures workable { IsWorkable self.new.item }
    {
        match next {
            Due::End => self.end_folder(alloc, tree),
            Due::Thing(pair) => Some(self.take_up(alloc, tree, parts, replies, pair)),
        }
    }

    /// Looks at a thing, and begins its copy.
    fn take_up<T: Tree, P: PartTest>(
        &mut self,
        alloc: Global,
        tree: &mut T,
        parts: &P,
        replies: Replies,
        pair: Pair,
    ) -> StepResult
        requires free { self.old.item ≡ ItemAtWork.Next }
        requires next { due (seen_copy self.old) ≡ Due.Thing pair }
        requires reach { IsInReach self.old.stack.levels.left (Due.Thing pair) }
        ensures works { TakesNext (IsPartPlace (P.is_free parts.now) (seen_copy self.old)) replies
            (seen_copy self.old) (seen_copy self.new) result.did (T.contents tree.old) (T.contents tree.new) }
        ensures counts { Counts result.did result.calls (T.contents tree.old) (T.contents tree.new)
            (T.fault_count tree.old) (T.fault_count tree.new) }
        ensures workable { IsWorkable self.new.item }
    {
        let asks = Asks {
            top: self.stack.is_outermost(),
            replies,
        };
        match look_at_pair(alloc, tree, &pair, self.stage, asks) {
            Ok(taken) => self.begin(alloc, tree, parts, replies, pair, taken),
            Err(trouble) => stopped(trouble),
        }
    }

    /// Begins the copy of a thing that was looked at.
    fn begin<T: Tree, P: PartTest>(
        &mut self,
        alloc: Global,
        tree: &mut T,
        parts: &P,
        replies: Replies,
        pair: Pair,
        taken: Taken,
    ) -> StepResult
        requires free { self.old.item ≡ ItemAtWork.Next }
        requires next { due (seen_copy self.old) ≡ Due.Thing pair }
        requires reach { IsInReach self.old.stack.levels.left (Due.Thing pair) }
        requires known { IfKnown (T.contents tree.old) (λ log.
            IsTaken (current log) (is_top (seen_copy self.old)) replies pair taken) }
        requires sound { IsSound taken }
        requires may { MayTake self.old.stage (is_top (seen_copy self.old)) pair taken }
        ensures works { TakesNext (IsPartPlace (P.is_free parts.now) (seen_copy self.old)) replies
            (seen_copy self.old) (seen_copy self.new) result.did (T.contents tree.old) (T.contents tree.new) }
        ensures counts { Counts result.did result.calls (T.contents tree.old) (T.contents tree.new)
            (T.fault_count tree.old) (T.fault_count tree.new) }
        ensures workable { IsWorkable self.new.item }
    {
        match taken {
            Taken::File(facts) => self.begin_file(alloc, tree, parts, pair, facts),
            Taken::Link => self.begin_link(alloc, tree, parts, replies, pair),
            Taken::Folder { names, mode } => self.make_folder(alloc, tree, pair, names, mode),
            Taken::Merged { names } => self.merge(pair, names),
            Taken::Kept => self.keep(pair),
            Taken::Asked(question) => asked(question),
        }
    }

    /// The two folders are merged: what lies in the source is copied by others, so the copy is done with it.
    fn merge(&mut self, pair: Pair, names: Names) -> StepResult
        requires next { due (seen_copy self.old) ≡ Due.Thing pair }
        ensures passed { seen_copy self.new
            ≡ record (seen_copy self.old) { levels = passed_levels false self.old.stack.levels } }
        ensures told { result ≡ record { did = Did.Merges Transfer.ByCopy pair names; calls = 0 } }
        ensures few { length names ≤ 2 ^ 64 }
    {
        let _count = names.as_slice().len();
        self.stack.pass(false);
        StepResult {
            did: Did::Merges(Transfer::ByCopy, pair, names),
            calls: 0,
        }
    }

    /// What stands at the target stays, so the copy is done with it.
    fn keep(&mut self, pair: Pair) -> StepResult
        requires next { due (seen_copy self.old) ≡ Due.Thing pair }
        ensures passed { seen_copy self.new
            ≡ record (seen_copy self.old) { levels = passed_levels false self.old.stack.levels } }
        ensures told { result ≡ record { did = Did.Kept pair.target; calls = 0 } }
    {
        self.stack.pass(false);
        StepResult {
            did: Did::Kept(pair.target),
            calls: 0,
        }
    }

    /// The first step of a file's copy, of which this is said.
    fn begin_file<T: Tree, P: PartTest>(
        &mut self,
        alloc: Global,
        tree: &mut T,
        parts: &P,
        pair: Pair,
        facts: SourceFacts,
    ) -> StepResult
        requires free { self.old.item ≡ ItemAtWork.Next }
        requires next { due (seen_copy self.old) ≡ Due.Thing pair }
        requires range { HasRange facts }
        ensures works { RunsOut (seen_copy self.old) (seen_copy self.new) result.did (T.contents tree.old)
            (T.contents tree.new)
            ⊎ FileBegins (IsPartPlace (P.is_free parts.now) (seen_copy self.old))
            facts (file_begun self.old.job pair.source pair.target) (seen_copy self.old) (seen_copy self.new)
            result.did (T.contents tree.old) (T.contents tree.new) }
        ensures counts { Counts result.did result.calls (T.contents tree.old) (T.contents tree.new)
            (T.fault_count tree.old) (T.fault_count tree.new) }
        ensures workable { IsWorkable self.new.item }
    {
        match self.file_copy(alloc, pair) {
            Ok(copy) => self.make_part(alloc, tree, parts, copy, facts),
            Err(NoMemory) => stopped(out_of_memory(false)),
        }
    }

    /// The part of a file is made.
    fn make_part<T: Tree, P: PartTest>(
        &mut self,
        alloc: Global,
        tree: &mut T,
        parts: &P,
        copy: FileCopy,
        facts: SourceFacts,
    ) -> StepResult
        requires free { self.old.item ≡ ItemAtWork.Next }
        requires stage { copy.stage ≡ FileStage.Begin }
        requires range { HasRange facts }
        ensures works { FileBegins (IsPartPlace (P.is_free parts.now) (seen_copy self.old)) facts copy
            (seen_copy self.old) (seen_copy self.new) result.did (T.contents tree.old) (T.contents tree.new) }
        ensures counts { Counts result.did result.calls (T.contents tree.old) (T.contents tree.new)
            (T.fault_count tree.old) (T.fault_count tree.new) }
        ensures workable { IsWorkable self.new.item }
    {
        let mut copy = copy;
        let places = PartPlaces {
            given: parts,
            top: &self.name,
            stack: &self.stack,
        };
        let stepped = copy.begin_with(alloc, tree, &places, facts);
        see_part(&copy);
        self.note(&stepped.did, copy.is_dirty());
        self.put_file(copy);
        stepped
    }

    fn file_copy(&self, alloc: Global, pair: Pair) -> Result<FileCopy, NoMemory>
        requires next { due (seen_copy self.now) ≡ Due.Thing pair }
        ensures { IfOk result (λ copy. copy ≡ file_begun self.now.job pair.source pair.target) }
    {
        let source_folder = self.stack.source().copy(alloc)?;
        let folder = self.stack.target().copy(alloc)?;
        Ok(FileCopy::new(self.job, pair.source, source_folder, pair.target, folder))
    }
    /// The first step of a link's copy, by way of a part whose name is free.
    fn begin_link<T: Tree, P: PartTest>(
        &mut self,
        alloc: Global,
        tree: &mut T,
        parts: &P,
        replies: Replies,
        pair: Pair,
    ) -> StepResult
        requires free { self.old.item ≡ ItemAtWork.Next }
        requires next { due (seen_copy self.old) ≡ Due.Thing pair }
        requires reach { IsInReach self.old.stack.levels.left (Due.Thing pair) }
        requires taken { IfKnown (T.contents tree.old) (λ log.
            IsTaken (current log) (is_top (seen_copy self.old)) replies pair Taken.Link) }
        ensures works { TakesNext (IsPartPlace (P.is_free parts.now) (seen_copy self.old)) replies
            (seen_copy self.old) (seen_copy self.new) result.did (T.contents tree.old) (T.contents tree.new) }
        ensures counts { Counts result.did result.calls (T.contents tree.old) (T.contents tree.new)
            (T.fault_count tree.old) (T.fault_count tree.new) }
        ensures workable { IsWorkable self.new.item }
    {
        let places = match self.places_of(alloc, &pair) {
            Ok(places) => places,
            Err(NoMemory) => return stopped(out_of_memory(false)),
        };
        let free = PartPlaces {
            given: parts,
            top: &self.name,
            stack: &self.stack,
        };
        match choose_part(alloc, tree, &free, &places) {
            Ok(part) => {
                see_path(&part);
                self.make_link(alloc, tree, pair, part)
            }
            Err(trouble) => stopped(trouble),
        }
    }

    fn make_link<T: Tree>(
        &mut self,
        alloc: Global,
        tree: &mut T,
        pair: Pair,
        part: Path,
    ) -> StepResult
        requires free { self.old.item ≡ ItemAtWork.Next }
        requires next { due (seen_copy self.old) ≡ Due.Thing pair }
        ensures works { RunsOut (seen_copy self.old) (seen_copy self.new) result.did (T.contents tree.old)
            (T.contents tree.new)
            ⊎ LinkWorks (link_begun pair part) (seen_copy self.old) (seen_copy self.new) result.did
            (T.contents tree.old) (T.contents tree.new) }
        ensures counts { Counts result.did result.calls (T.contents tree.old) (T.contents tree.new)
            (T.fault_count tree.old) (T.fault_count tree.new) }
        ensures workable { IsWorkable self.new.item }
    {
        match self.link_copy(alloc, pair, part) {
            Ok(copy) => self.work_link(alloc, tree, copy),
            Err(NoMemory) => stopped(out_of_memory(false)),
        }
    }

    fn link_copy(&self, alloc: Global, pair: Pair, part: Path) -> Result<LinkCopy, NoMemory>
        requires next { due (seen_copy self.now) ≡ Due.Thing pair }
        ensures { IfOk result (λ copy. copy ≡ link_begun pair part) }
    {
        let folder = self.stack.target().copy(alloc)?;
        Ok(LinkCopy::new(pair.source, pair.target, folder, part))
    }

    /// The paths of a copy, as the name of a part is chosen by.
    fn places_of(&self, alloc: Global, pair: &Pair) -> Result<Places, NoMemory>
        requires next { due (seen_copy self.now) ≡ Due.Thing pair.now }
        ensures { IfOk result (λ item. item ≡ places self.now.job pair.now.source pair.now.target) }
    {
        let source = pair.source.copy(alloc)?;
        let source_folder = self.stack.source().copy(alloc)?;
        let target = pair.target.copy(alloc)?;
        let folder = self.stack.target().copy(alloc)?;
        Ok(Places::new(self.job, source, source_folder, target, folder))
    }
}

/// It is asked whether what stands at the target is replaced.
fn asked(question: Question) -> StepResult
    ensures { result ≡ record { did = Did.Asked question; calls = 0 } }
{
    StepResult {
        did: Did::Asked(question),
        calls: 0,
    }
}
