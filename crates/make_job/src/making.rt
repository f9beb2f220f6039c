//! The making of one new thing, an empty folder or a link, a call of the tree at each step: it is made,
//! then the folder that holds it is synced, and only then is it finished, so that a thing whose making is
//! finished is on the disk.
ghost use Rattle.std.specs.Prelude.{◌≡◌, Some};
ghost use Rattle.mc_text.specs.Routes.{parent_of};
ghost use Rattle.job_reports.specs.Paths.{folder_of};
ghost use Rattle.make_job.specs.Makings.{at_barrier, is_dirty, is_fresh, skipped_stage as skipped_to};
ghost use Rattle.make_job.specs.MakingAnswers.{LastMakingAnswered, MakingAnswered};
ghost use Rattle.make_job.specs.MakingSteps.{LastMakingStep, MakingSkips, MakingStep};
ghost use Rattle.make_job.specs.NewThings.{IsMakable};

use crate::new_thing::NewThing;
use job_reports::{Cause, Did, Ending, LastStepResult, StepResult, out_of_memory};
use job_unsynced::{ended, last_report, refused, tried, with_call, without_call};
use mc_text::Path;
use std::alloc::Global;
use std::marker::Model;
use tree_trait::Tree;

/// What is to be done next.
#[derive(Clone, Copy, Debug, Drop, PartialEq, Eq)]
pub enum MakingStage {
    /// The thing is to be made.
    Make,
    /// The thing stands. The folder that holds it is synced before the end, so that no crash
    /// takes it away after the end.
    Sync,
    /// The thing stands for good. Nothing is left to be done.
    Finish,
    /// The thing was not made. Nothing is left to be done.
    PassedOver,
}

/// The making of one thing.
#[derive(Debug, Drop)]
pub struct ThingMaking {
    path: Path,
    folder: Path,
    thing: NewThing,
    stage: MakingStage,
}

impl Model for ThingMaking {
    ghost use Rattle.std.specs.Prelude.{◌≡◌, Some};
    ghost use Rattle.mc_text.specs.Routes.{parent_of};
    ghost use Rattle.make_job.specs.Makings.{Making};
    ghost use Rattle.make_job.specs.NewThings.{IsMakable};

    ghost Value = { Making };

    ghost view = { λ m. record { path = m.path; thing = m.thing; stage = m.stage } };

    ghost invariant = { λ m. (parent_of m.path ≡ Some m.folder) × IsMakable m.thing };
}

impl ThingMaking {
    /// The making of a thing at `path`, which is to lie in `folder`.
    pub fn new(path: Path, folder: Path, thing: NewThing) -> ThingMaking
        requires holds { parent_of path ≡ Some folder }
        requires makable { IsMakable thing }
        ensures { result ≡ record { path = path; thing = thing; stage = MakingStage.Make } }
    {
        ThingMaking {
            path,
            folder,
            thing,
            stage: MakingStage::Make,
        }
    }

    /// Does the next piece of work, which is at most one call of the tree.
    pub fn step<T: Tree>(&mut self, alloc: Global, tree: &mut T) -> StepResult
        ensures steps { MakingStep self.old self.new result.did result.calls (T.contents tree.old)
            (T.contents tree.new) (T.fault_count tree.old) (T.fault_count tree.new) }
        ensures answered { MakingAnswered self.old result.did (T.answered tree.old) (T.answered tree.new) }
    {
        match self.stage {
            MakingStage::Make => self.make(alloc, tree),
            MakingStage::Sync => self.sync(alloc, tree),
            MakingStage::Finish | MakingStage::PassedOver => without_call(ended(Ending::Finished)),
        }
    }

    /// The thing is not made.
    pub fn skip(&mut self, alloc: Global, cause: Cause) -> Did
        ensures { MakingSkips cause self.old result self.new }
    {
        let Ok(path) = self.path.copy(alloc) else {
            return Did::Troubled(out_of_memory(self.is_at_barrier()));
        };
        self.stage = skipped(self.stage);
        Did::Skipped(path, cause)
    }

    /// Makes the next of the last steps of a job that is to end so: a sync that is owed is tried once.
    pub fn wind_up<T: Tree>(
        &mut self,
        alloc: Global,
        tree: &mut T,
        ending: Ending,
    ) -> LastStepResult
        ensures winds { LastMakingStep ending self.old self.new result.did result.calls result.left
            (T.contents tree.old)
            (T.contents tree.new) (T.fault_count tree.old) (T.fault_count tree.new) }
        ensures answered { LastMakingAnswered self.old result.did result.left
            (T.answered tree.old) (T.answered tree.new) }
    {
        match self.stage {
            MakingStage::Sync => self.try_sync(alloc, tree, ending),
            MakingStage::Make | MakingStage::Finish | MakingStage::PassedOver => last_report(
                ended(ending),
                None,
            ),
        }
    }

    /// Where it is made.
    pub fn path(&self) -> &Path
        ensures { result.now ≡ self.now.path }
    {
        &self.path
    }

    /// What is made.
    pub fn thing(&self) -> &NewThing
        ensures { result.now ≡ self.now.thing }
    {
        &self.thing
    }

    /// The folder that holds the new thing.
    pub fn folder(&self) -> &Path
        ensures holds { parent_of self.now.path ≡ Some result.now }
        ensures is { result.now ≡ folder_of self.now.path }
    {
        &self.folder
    }

    /// Whether the folder that holds it has a name more, and no sync has brought that onto the disk, as
    /// far as this making goes.
    pub fn is_dirty(&self) -> bool
        ensures { result ≡ is_dirty self.now.stage }
    {
        match self.stage {
            MakingStage::Sync => true,
            MakingStage::Make | MakingStage::Finish | MakingStage::PassedOver => false,
        }
    }

    /// Whether nothing was changed yet.
    pub fn is_fresh(&self) -> bool
        ensures { result ≡ is_fresh self.now.stage }
    {
        match self.stage {
            MakingStage::Make => true,
            MakingStage::Sync | MakingStage::Finish | MakingStage::PassedOver => false,
        }
    }

    /// Whether the next call is at a barrier, where nothing can be skipped.
    pub fn is_at_barrier(&self) -> bool
        ensures { result ≡ at_barrier self.now.stage }
    {
        match self.stage {
            MakingStage::Make => false,
            MakingStage::Sync | MakingStage::Finish | MakingStage::PassedOver => true,
        }
    }
}

impl ThingMaking {
    fn make<T: Tree>(&mut self, alloc: Global, tree: &mut T) -> StepResult
        requires stage { self.old.stage ≡ MakingStage.Make }
        ensures steps { MakingStep self.old self.new result.did result.calls (T.contents tree.old)
            (T.contents tree.new) (T.fault_count tree.old) (T.fault_count tree.new) }
        ensures answered { MakingAnswered self.old result.did (T.answered tree.old) (T.answered tree.new) }
    {
        // The path of the report comes first: after the call it is too late to find no memory.
        let Ok(path) = self.path.copy(alloc) else {
            return without_call(Did::Troubled(out_of_memory(false)));
        };
        match self.thing.make_at(alloc, tree, &self.path) {
            Ok(()) => {
                self.stage = MakingStage::Sync;
                with_call(Did::Made(path))
            }
            Err(error) => refused(error, path, false),
        }
    }

    fn sync<T: Tree>(&mut self, alloc: Global, tree: &mut T) -> StepResult
        requires stage { self.old.stage ≡ MakingStage.Sync }
        ensures steps { MakingStep self.old self.new result.did result.calls (T.contents tree.old)
            (T.contents tree.new) (T.fault_count tree.old) (T.fault_count tree.new) }
        ensures answered { MakingAnswered self.old result.did (T.answered tree.old) (T.answered tree.new) }
    {
        let owed = self.folder();
        let Ok(folder) = owed.copy(alloc) else {
            return without_call(Did::Troubled(out_of_memory(true)));
        };
        match tree.sync_folder(alloc, owed) {
            Ok(()) => {
                self.stage = MakingStage::Finish;
                with_call(Did::Barrier)
            }
            Err(error) => refused(error, folder, true),
        }
    }

    /// The one try of a job that is to end.
    fn try_sync<T: Tree>(&mut self, alloc: Global, tree: &mut T, ending: Ending) -> LastStepResult
        requires stage { self.old.stage ≡ MakingStage.Sync }
        ensures winds { LastMakingStep ending self.old self.new result.did result.calls result.left
            (T.contents tree.old)
            (T.contents tree.new) (T.fault_count tree.old) (T.fault_count tree.new) }
        ensures answered { LastMakingAnswered self.old result.did result.left
            (T.answered tree.old) (T.answered tree.new) }
    {
        let _ending = ending;
        let answer = tree.sync_folder(alloc, self.folder());
        self.stage = MakingStage::Finish;
        tried(answer)
    }
}

/// Where a making stands without its thing.
fn skipped(stage: MakingStage) -> MakingStage
    ensures { result ≡ skipped_to stage }
{
    match stage {
        MakingStage::Make => MakingStage::PassedOver,
        MakingStage::Sync => MakingStage::Sync,
        MakingStage::Finish => MakingStage::Finish,
        MakingStage::PassedOver => MakingStage::PassedOver,
    }
}
