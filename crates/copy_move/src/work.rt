//! What a job does: it copies or deletes a thing with all that lies in it, moves a thing, makes a folder or
//! a link, sets a thing's mode, or removes a folder that a merge has emptied. One machine for each.
ghost use Rattle.std.specs.Prelude.{◌≡◌, false, option_map, true};
ghost use Rattle.copy_move.specs.Jobs.{IsGoing, at_barrier, is_fresh, kind_of};
ghost use Rattle.copy_move.specs.Jobs.{part_of, path_of, taken_anew as anew};
ghost use Rattle.copy_move.specs.Settling.{changed_folder, is_owed_anywhere, left_folder, moved_thing};
ghost use Rattle.copy_move.specs.JobStepReports.{WorkSkips, WorkSteps, WorkWindsUp};

use copy_job::SubtreeCopy;
use delete_job::TreeDeletion;
use emptied_job::{FolderRemoval, step_removal, wind_up_removal};
use job_answers::Replies;
use job_reports::{Cause, Did, Ending, JobKind, LastStepResult, PartTest, StepResult};
use job_unsynced::Dirty;
use make_job::{ThingMaking, step_making, wind_up_making};
use mc_text::Path;
use mode_job::{ModeSetting, step_setting, wind_up_setting};
use move_job::{ThingMoving, step_moving, wind_up_moving};
use std::alloc::Global;
use tree_trait::Tree;

/// The work of a job.
#[derive(Debug, Drop)]
pub enum Work {
    Copy(SubtreeCopy),
    Delete(TreeDeletion),
    Make(ThingMaking),
    Move(ThingMoving),
    SetMode(ModeSetting),
    RemoveEmptied(FolderRemoval),
}

impl Work {
    /// Does the next piece of work, where this was answered to the job's questions and troubles.
    pub(crate) fn step<T: Tree, P: PartTest>(
        &mut self,
        alloc: Global,
        tree: &mut T,
        parts: &P,
        dirty: &mut Dirty,
        replies: Replies,
    ) -> StepResult
        requires going { IsGoing self.old }
        ensures steps { WorkSteps (λ path. P.is_free parts.now path ≡ true) replies self.old self.new
            result.did result.calls
            dirty.old dirty.new (T.contents tree.old) (T.contents tree.new) (T.fault_count tree.old)
            (T.fault_count tree.new) }
        ensures going { IsGoing self.new }
    {
        match self {
            Work::Copy(copy) => copy.step(alloc, tree, parts, dirty, replies),
            Work::Delete(deletion) => deletion.step(alloc, tree, dirty, replies),
            Work::Make(making) => step_making(making, alloc, tree, dirty),
            Work::Move(moving) => step_moving(moving, alloc, tree, dirty, replies),
            Work::SetMode(setting) => step_setting(setting, alloc, tree, dirty, replies),
            Work::RemoveEmptied(removal) => step_removal(removal, alloc, tree, dirty, replies),
        }
    }

    /// What is in trouble is left as it is. It isn't at a barrier.
    pub(crate) fn skip(&mut self, alloc: Global, cause: Cause) -> Did
        requires going { IsGoing self.old }
        requires apart { at_barrier self.old ≡ false }
        ensures skips { WorkSkips cause self.old result self.new }
        ensures going { IsGoing self.new }
    {
        match self {
            Work::Copy(copy) => copy.skip(alloc, cause),
            Work::Delete(deletion) => deletion.skip(alloc, cause),
            Work::Make(making) => making.skip(alloc, cause),
            Work::Move(moving) => moving.skip(alloc, cause),
            Work::SetMode(setting) => setting.skip(alloc, cause),
            Work::RemoveEmptied(removal) => removal.skip(alloc, cause),
        }
    }

    /// What was refused is taken up once more.
    pub(crate) fn retry(&mut self)
        requires going { IsGoing self.old }
        ensures anew { self.new ≡ anew self.old }
        ensures going { IsGoing self.new }
    {
        match self {
            Work::Copy(copy) => copy.retry(),
            Work::Delete(_) => {}
            Work::Make(_) => {}
            Work::Move(_) => {}
            Work::SetMode(_) => {}
            Work::RemoveEmptied(_) => {}
        }
    }

    /// Makes the next of the last steps.
    pub(crate) fn wind_up<T: Tree>(
        &mut self,
        alloc: Global,
        tree: &mut T,
        ending: Ending,
        dirty: &mut Dirty,
    ) -> LastStepResult
        ensures { WorkWindsUp ending self.old self.new result.did result.calls result.left dirty.old dirty.new
            (T.contents tree.old) (T.contents tree.new) (T.fault_count tree.old) (T.fault_count tree.new) }
    {
        match self {
            Work::Copy(copy) => copy.wind_up(alloc, tree, ending, dirty),
            Work::Delete(deletion) => deletion.wind_up(alloc, tree, ending, dirty),
            Work::Make(making) => wind_up_making(making, alloc, tree, ending, dirty),
            Work::Move(moving) => wind_up_moving(moving, alloc, tree, ending, dirty),
            Work::SetMode(setting) => wind_up_setting(setting, alloc, tree, ending, dirty),
            Work::RemoveEmptied(removal) => wind_up_removal(removal, alloc, tree, ending, dirty),
        }
    }

    /// What is done.
    pub(crate) fn kind(&self) -> JobKind
        ensures { result ≡ kind_of self.now }
    {
        match self {
            Work::Copy(_) => JobKind::Copy,
            Work::Delete(_) => JobKind::Delete,
            Work::Make(making) => making.thing().kind(),
            Work::Move(_) => JobKind::Move,
            Work::SetMode(_) => JobKind::SetMode,
            Work::RemoveEmptied(_) => JobKind::Move,
        }
    }

    /// What is copied, deleted, made, moved, given a mode or removed.
    pub(crate) fn path(&self) -> &Path
        ensures { result.now ≡ path_of self.now }
    {
        match self {
            Work::Copy(copy) => copy.source(),
            Work::Delete(deletion) => deletion.path(),
            Work::Make(making) => making.path(),
            Work::Move(moving) => &moving.pair().source,
            Work::SetMode(setting) => setting.path(),
            Work::RemoveEmptied(removal) => removal.path(),
        }
    }

    /// The part that stands.
    pub(crate) fn part(&self) -> Option<&Path>
        ensures { option_map (λ part. part.now) result ≡ part_of self.now }
    {
        match self {
            Work::Copy(copy) => copy.part(),
            Work::Delete(_) => None,
            Work::Make(_) => None,
            Work::Move(_) => None,
            Work::SetMode(_) => None,
            Work::RemoveEmptied(_) => None,
        }
    }

    /// The part that stands, where the work is given up.
    pub(crate) fn into_part(self) -> Option<Path>
        ensures { result ≡ part_of self }
    {
        match self {
            Work::Copy(copy) => copy.into_part(),
            Work::Delete(_) => None,
            Work::Make(_) => None,
            Work::Move(_) => None,
            Work::SetMode(_) => None,
            Work::RemoveEmptied(_) => None,
        }
    }

    /// Whether the next call is at a barrier, where nothing can be skipped.
    pub(crate) fn is_at_barrier(&self) -> bool
        ensures { result ≡ at_barrier self.now }
    {
        match self {
            Work::Copy(copy) => copy.is_at_barrier(),
            Work::Delete(deletion) => deletion.is_at_barrier(),
            Work::Make(making) => making.is_at_barrier(),
            Work::Move(moving) => moving.is_at_barrier(),
            Work::SetMode(setting) => setting.is_at_barrier(),
            Work::RemoveEmptied(removal) => removal.is_at_barrier(),
        }
    }

    /// The folder that holds what is placed, removed or given a mode; of a move that of its target, which a
    /// renaming finds on the mount of the other.
    pub(crate) fn folder(&self) -> &Path
        ensures { result.now ≡ changed_folder self.now }
    {
        match self {
            Work::Copy(copy) => copy.folder(),
            Work::Delete(deletion) => deletion.folder(),
            Work::Make(making) => making.folder(),
            Work::Move(moving) => moving.folder(),
            Work::SetMode(setting) => setting.folder(),
            Work::RemoveEmptied(removal) => removal.folder(),
        }
    }

    /// The folder that something leaves: of a move that of its source, of all else the one that is changed.
    pub(crate) fn left_folder(&self) -> &Path
        ensures { result.now ≡ left_folder self.now }
    {
        match self {
            Work::Copy(copy) => copy.folder(),
            Work::Delete(deletion) => deletion.folder(),
            Work::Make(making) => making.folder(),
            Work::Move(moving) => moving.source_folder(),
            Work::SetMode(setting) => setting.folder(),
            Work::RemoveEmptied(removal) => removal.folder(),
        }
    }

    /// Whether what is dirty here has to be synced first on whatever mount it lies: it is the thing that is
    /// removed or moved, or lies in it; and before a mode is set all has, since the mode of a folder may
    /// bar the way to what lies in it.
    pub(crate) fn is_owed_anywhere(&self, dirty: &Path) -> bool
        ensures { result ≡ is_owed_anywhere self.now dirty.now }
    {
        match self {
            Work::Copy(_) => false,
            Work::Delete(deletion) => deletion.path().is_prefix_of(dirty),
            Work::Make(_) => false,
            Work::Move(moving) => moving.pair().source.is_prefix_of(dirty),
            Work::SetMode(_) => true,
            Work::RemoveEmptied(removal) => removal.path().is_prefix_of(dirty),
        }
    }

    /// What is moved, if anything is.
    pub(crate) fn moved_thing(&self) -> Option<&Path>
        ensures { option_map (λ source. source.now) result ≡ moved_thing self.now }
    {
        match self {
            Work::Copy(_) => None,
            Work::Delete(_) => None,
            Work::Make(_) => None,
            Work::Move(moving) => Some(&moving.pair().source),
            Work::SetMode(_) => None,
            Work::RemoveEmptied(_) => None,
        }
    }

    /// Whether nothing was changed yet.
    pub(crate) fn is_fresh(&self) -> bool
        ensures { result ≡ is_fresh self.now }
    {
        match self {
            Work::Copy(copy) => copy.is_fresh(),
            Work::Delete(deletion) => deletion.is_fresh(),
            Work::Make(making) => making.is_fresh(),
            Work::Move(moving) => moving.is_fresh(),
            Work::SetMode(setting) => setting.is_fresh(),
            Work::RemoveEmptied(removal) => removal.is_fresh(),
        }
    }
}
