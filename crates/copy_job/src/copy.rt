//! The copy of a thing with all that lies in it.
ghost use Rattle.std.specs.Prelude.{◌≡◌, IfOk, is_some, option_map, true};
ghost use Rattle.mc_text.specs.Routes.{is_prefix, parent_of};
ghost use Rattle.job_reports.specs.Paths.{folder_of};
ghost use Rattle.tree_trait.specs.Answers.{IfKnown};
ghost use Rattle.copy_tree.specs.InPlace.{IsInPlace};
ghost use Rattle.copy_tree.specs.Standing.{is_fresh};
ghost use Rattle.copy_job.specs.LastCalls.{LastCalls, TellsTried};
ghost use Rattle.copy_job.specs.Reporting.{ChangesOwn, IsAfterLastStep};
ghost use Rattle.copy_job.specs.Standing.{IsGoing, at_barrier, is_own, part_of, retries, begun_subtree_copy};
ghost use Rattle.copy_job.specs.SubtreeSteps.{LastSubtreeStep, SubtreeSkips, SubtreeSteps};

use crate::leaving::leave_settled;
use crate::passing::or_passed_over;
use crate::standing::{into_part, is_at_barrier, named, part};
use crate::working::work;
use copy_tree::TreeCopy;
use job_answers::Replies;
use job_reports::{Cause, Did, Ending, LastStepResult, Pair, PartTest, StepResult};
use job_unsynced::Dirty;
use mc_text::{NoMemory, Path};
use std::alloc::Global;
use std::marker::Model;
use tree_trait::Tree;

/// A copy of what stands at the source of `top`, to its target, which lies in `folder`.
#[derive(Debug, Drop)]
pub struct SubtreeCopy {
    machine: TreeCopy,
    top: Pair,
    folder: Path,
}

impl Model for SubtreeCopy {
    ghost use Rattle.copy_tree.specs.Standing.{seen_copy};
    ghost use Rattle.copy_job.specs.Standing.{IsHeld, SubtreeCopying};

    ghost Value = { SubtreeCopying };

    ghost view = { λ c. record { top = c.top; at = seen_copy c.machine } };

    ghost invariant = { λ c. IsHeld c.top c.folder (seen_copy c.machine) };
}

impl SubtreeCopy {
    /// The copy of the thing at the source of `top`, to its target. Neither is the root.
    pub fn begin(alloc: Global, job: u32, top: Pair) -> Result<SubtreeCopy, NoMemory>
        requires source { is_some (parent_of top.source) ≡ true }
        requires target { is_some (parent_of top.target) ≡ true }
        ensures begun { IfOk result (λ copy. copy ≡ begun_subtree_copy job top) }
        ensures going { IfOk result IsGoing }
    {
        let source = named(alloc, &top.source)?;
        let target = named(alloc, &top.target)?;
        let folder = target.folder.copy(alloc)?;
        Ok(SubtreeCopy {
            machine: TreeCopy::new(alloc, job, source, target)?,
            top,
            folder,
        })
    }

    /// Does the next piece of work, where this was answered to the job. Where that is in a trouble of a
    /// kind that is skipped, it is passed over.
    pub fn step<T: Tree, P: PartTest>(
        &mut self,
        alloc: Global,
        tree: &mut T,
        parts: &P,
        dirty: &mut Dirty,
        replies: Replies,
    ) -> StepResult
        requires going { IsGoing self.old }
        ensures steps { SubtreeSteps (P.is_free parts.now) replies self.old self.new result.did result.calls
            dirty.old dirty.new (T.contents tree.old) (T.contents tree.new) (T.fault_count tree.old)
            (T.fault_count tree.new) }
        ensures own { ChangesOwn self.old result.did dirty.old dirty.new }
        ensures in_place { IsInPlace self.old.top self.old.at }
        ensures going { IsGoing self.new }
    {
        leave_settled(&mut self.machine);
        let worked = work(&mut self.machine, alloc, tree, parts, replies, dirty);
        or_passed_over(&mut self.machine, alloc, replies.skips(), worked)
    }

    /// What is in trouble is left as it is, with all below it.
    pub fn skip(&mut self, alloc: Global, cause: Cause) -> Did
        requires going { IsGoing self.old }
        ensures skips { SubtreeSkips cause self.old result self.new }
        ensures going { IsGoing self.new }
    {
        self.machine.skip(alloc, cause)
    }

    /// What was refused is tried again.
    pub fn retry(&mut self)
        requires going { IsGoing self.old }
        ensures retried { self.new ≡ retries self.old }
        ensures going { IsGoing self.new }
    {
        self.machine.retry();
    }

    /// Makes the next of the last steps of a job that is to end so: the part is removed, if it can be; each
    /// folder that is dirty is tried once to be synced, the inner ones first; and then it ends.
    pub fn wind_up<T: Tree>(
        &mut self,
        alloc: Global,
        tree: &mut T,
        ending: Ending,
        dirty: &mut Dirty,
    ) -> LastStepResult
        ensures winds { LastSubtreeStep ending self.old self.new result dirty.old dirty.new
            (T.contents tree.old) (T.contents tree.new) (T.fault_count tree.old) (T.fault_count tree.new) }
        ensures wound { IsAfterLastStep ending self.old result.did self.new }
        ensures own { is_own self.old self.new.at.levels.inner.copy.target ≡ true }
        ensures called { IfKnown (T.contents tree.old) (λ log.
            LastCalls (part_of self.old.at.item) result.did log (T.contents tree.new)) }
        ensures told { IfKnown (T.contents tree.old) (λ log. TellsTried (part_of self.old.at.item) result.did
            result.left self.new.at.levels.inner.copy.target log (T.contents tree.new)) }
    {
        let last = self.machine.wind_up(alloc, tree, ending);
        dirty.note_try(&last.did, last.left, self.machine.folder());
        last
    }

    /// The part that stands.
    pub fn part(&self) -> Option<&Path>
        ensures { option_map (λ part. part.now) result ≡ part_of self.now.at.item }
    {
        part(&self.machine.item)
    }

    /// The part that stands, where the copy is given up.
    pub fn into_part(self) -> Option<Path>
        ensures { result ≡ part_of self.at.item }
    {
        let SubtreeCopy {
            machine,
            top: _,
            folder: _,
        } = self;
        into_part(machine)
    }

    /// What is copied.
    pub fn source(&self) -> &Path
        ensures { result.now ≡ self.now.top.source }
    {
        &self.top.source
    }

    /// The folder that holds the target.
    pub fn folder(&self) -> &Path
        ensures { result.now ≡ folder_of self.now.top.target }
    {
        &self.folder
    }

    /// Whether this is the target, or lies in it.
    pub fn is_within(&self, folder: &Path) -> bool
        ensures { result ≡ is_prefix self.now.top.target folder.now }
    {
        self.top.target.is_prefix_of(folder)
    }

    /// Whether this is a folder in which the copy may change names.
    pub fn is_own(&self, folder: &Path) -> bool
        ensures { result ≡ is_own self.now folder.now }
    {
        folder.same(&self.folder) || self.top.target.is_prefix_of(folder)
    }

    /// Whether nothing was changed yet.
    pub fn is_fresh(&self) -> bool
        ensures { result ≡ is_fresh self.now.at.stage }
    {
        self.machine.is_fresh()
    }

    /// Whether nothing can be skipped: a part is to be removed, or a folder synced.
    pub fn is_at_barrier(&self) -> bool
        ensures { result ≡ at_barrier self.now.at }
    {
        is_at_barrier(&self.machine)
    }
}
