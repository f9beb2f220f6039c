//! The move of one thing, of a folder with all that lies in it, a call of the tree at each step: it is
//! looked at and renamed, the folder of its target is synced, then the one in which it was, and only then
//! is it finished, so that a thing whose move is finished is on the disk where it went. A folder that comes
//! onto a folder is not renamed: what lies in it is told, to be moved by others, and nothing is changed.
ghost use Rattle.std.specs.Prelude.{◌≡◌, false, true, Some, Err};
ghost use Rattle.mc_text.specs.Routes.{parent_of, same_path};
ghost use Rattle.tree_trait.specs.Change.{current};
ghost use Rattle.tree_trait.specs.Answers.{IfKnown, IsAscending};
ghost use Rattle.job_reports.specs.Paths.{folder_of};
ghost use Rattle.job_reports.specs.Stops.{calls_made_for};
ghost use Rattle.copy_tree.specs.Taking.{AreShort};
ghost use Rattle.move_job.specs.Movings.{after_sync as synced_to, at_barrier, is_dirty};
ghost use Rattle.move_job.specs.Movings.{is_fresh, owed_folder, owes_target, begun_move};
ghost use Rattle.move_job.specs.MovingSteps.{IsMergedOr, Keeps, LastMovingStep, MovingSkips};
ghost use Rattle.move_job.specs.MovingSteps.{MovingStep, NotRenamed, NotTaken, PassesOver};
ghost use Rattle.move_job.specs.Takings.{MayMove};

use crate::stages::{after_target, skipped};
use crate::taking::{Taking, take_up};
use job_answers::Replies;
use job_reports::{
    Cause, Did, Ending, LastStepResult, Pair, StepResult, Transfer, Trouble, out_of_memory,
};
use job_unsynced::{ended, last_report, refused, tried, with_call, without_call};
use mc_text::{Names, Path};
use std::alloc::Global;
use std::marker::Model;
use tree_trait::{Tree, TreeError};

/// What is to be done next.
#[derive(Clone, Copy, Debug, Drop, PartialEq, Eq)]
pub enum MovingStage {
    /// The thing is to be looked at, and renamed.
    Take,
    /// It was renamed. The target's folder is synced first: where a disk had written one of the two folders
    /// alone, the thing would then stand in both, and never in none.
    SyncTarget,
    /// Then the folder in which it was.
    SyncSource,
    /// The thing stands at its target for good. Nothing is left to be done.
    Finish,
    /// The thing stays where it is, or is a folder that is merged with one, and what lies in it is moved by
    /// others. Nothing is left to be done.
    PassedOver,
}

/// The move of one thing.
#[derive(Debug, Drop)]
pub struct ThingMoving {
    pair: Pair,
    source_folder: Path,
    folder: Path,
    stage: MovingStage,
}

impl Model for ThingMoving {
    ghost use Rattle.std.specs.Prelude.{◌≡◌, false, Some};
    ghost use Rattle.mc_text.specs.Routes.{parent_of, same_path};
    ghost use Rattle.move_job.specs.Movings.{Moving};

    ghost Value = { Moving };

    ghost view = { λ m. record { pair = m.pair; stage = m.stage } };

    ghost invariant = { λ m. (parent_of m.pair.source ≡ Some m.source_folder)
        × (parent_of m.pair.target ≡ Some m.folder)
        × (same_path m.pair.source m.pair.target ≡ false) };
}

impl ThingMoving {
    /// The move of a thing to another path, where these folders hold its source and its target.
    pub fn new(pair: Pair, source_folder: Path, folder: Path) -> ThingMoving
        requires from { parent_of pair.source ≡ Some source_folder }
        requires to { parent_of pair.target ≡ Some folder }
        requires apart { same_path pair.source pair.target ≡ false }
        ensures { result ≡ begun_move pair }
    {
        ThingMoving {
            pair,
            source_folder,
            folder,
            stage: MovingStage::Take,
        }
    }

    /// Does the next piece of work, which is at most one changing call of the tree, where this was answered
    /// to the job's questions and troubles. What is asked is asked again, until an answer stands.
    pub fn step<T: Tree>(&mut self, alloc: Global, tree: &mut T, replies: Replies) -> StepResult
        ensures { MovingStep replies self.old self.new result.did result.calls (T.contents tree.old)
            (T.contents tree.new) (T.fault_count tree.old) (T.fault_count tree.new) }
    {
        match self.stage {
            MovingStage::Take => self.take(alloc, tree, replies),
            MovingStage::SyncTarget => self.sync(alloc, tree, replies),
            MovingStage::SyncSource => self.sync(alloc, tree, replies),
            MovingStage::Finish | MovingStage::PassedOver => without_call(ended(Ending::Finished)),
        }
    }

    /// The thing stays where it is.
    pub fn skip(&mut self, alloc: Global, cause: Cause) -> Did
        ensures { MovingSkips cause self.old result self.new }
    {
        let Ok(source) = self.pair.source.copy(alloc) else {
            return Did::Troubled(out_of_memory(self.is_at_barrier()));
        };
        self.stage = skipped(self.stage);
        Did::Skipped(source, cause)
    }

    /// Makes the next of the last steps of a job that is to end so: each sync that is owed is tried once.
    pub fn wind_up<T: Tree>(
        &mut self,
        alloc: Global,
        tree: &mut T,
        ending: Ending,
    ) -> LastStepResult
        ensures { LastMovingStep ending self.old self.new result.did result.calls result.left
            (T.contents tree.old)
            (T.contents tree.new) (T.fault_count tree.old) (T.fault_count tree.new) }
    {
        match self.stage {
            MovingStage::SyncTarget => self.try_sync(alloc, tree, ending),
            MovingStage::SyncSource => self.try_sync(alloc, tree, ending),
            MovingStage::Take | MovingStage::Finish | MovingStage::PassedOver => last_report(
                ended(ending),
                None,
            ),
        }
    }

    /// What is moved, and where to.
    pub fn pair(&self) -> &Pair
        ensures { result.now ≡ self.now.pair }
    {
        &self.pair
    }

    /// The folder that holds the target.
    pub fn folder(&self) -> &Path
        ensures holds { parent_of self.now.pair.target ≡ Some result.now }
        ensures is { result.now ≡ folder_of self.now.pair.target }
    {
        &self.folder
    }

    /// The folder in which the thing is, or was.
    pub fn source_folder(&self) -> &Path
        ensures holds { parent_of self.now.pair.source ≡ Some result.now }
        ensures is { result.now ≡ folder_of self.now.pair.source }
    {
        &self.source_folder
    }

    /// Whether a folder was changed, and not synced yet.
    pub fn is_dirty(&self) -> bool
        ensures { result ≡ is_dirty self.now.stage }
    {
        match self.stage {
            MovingStage::SyncTarget | MovingStage::SyncSource => true,
            MovingStage::Take | MovingStage::Finish | MovingStage::PassedOver => false,
        }
    }

    /// Whether the target's folder is still to be synced.
    pub fn owes_target(&self) -> bool
        ensures { result ≡ owes_target self.now.stage }
    {
        match self.stage {
            MovingStage::SyncTarget => true,
            MovingStage::Take | MovingStage::SyncSource => false,
            MovingStage::Finish | MovingStage::PassedOver => false,
        }
    }

    /// Whether nothing was changed or decided yet.
    pub fn is_fresh(&self) -> bool
        ensures { result ≡ is_fresh self.now.stage }
    {
        match self.stage {
            MovingStage::Take => true,
            MovingStage::SyncTarget | MovingStage::SyncSource => false,
            MovingStage::Finish | MovingStage::PassedOver => false,
        }
    }

    /// Whether the next call is at a barrier, where nothing can be skipped.
    pub fn is_at_barrier(&self) -> bool
        ensures { result ≡ at_barrier self.now.stage }
    {
        match self.stage {
            MovingStage::Take => false,
            MovingStage::SyncTarget | MovingStage::SyncSource => true,
            MovingStage::Finish | MovingStage::PassedOver => true,
        }
    }
}

impl ThingMoving {
    /// Looks at the thing, and renames it where nothing stands in the way.
    fn take<T: Tree>(&mut self, alloc: Global, tree: &mut T, replies: Replies) -> StepResult
        requires stage { self.old.stage ≡ MovingStage.Take }
        ensures { MovingStep replies self.old self.new result.did result.calls (T.contents tree.old)
            (T.contents tree.new) (T.fault_count tree.old) (T.fault_count tree.new) }
    {
        match take_up(alloc, tree, &self.pair, replies) {
            Ok(Taking::Moves) => self.rename(alloc, tree, replies),
            Ok(Taking::Keeps) => self.keep(alloc),
            Ok(Taking::Asks(question)) => without_call(Did::Asked(question)),
            Ok(Taking::Merges(names)) => self.merge(alloc, names),
            Err(trouble) => self.passed_or_troubled(alloc, trouble, replies),
        }
    }

    /// Renames the thing. The paths of the report come first: after the call it is
    /// too late to find no memory.
    fn rename<T: Tree>(&mut self, alloc: Global, tree: &mut T, replies: Replies) -> StepResult
        requires stage { self.old.stage ≡ MovingStage.Take }
        requires may { IfKnown (T.contents tree.old) (λ log. MayMove (current log) self.old.pair replies) }
        ensures { MovingStep replies self.old self.new result.did result.calls (T.contents tree.old)
            (T.contents tree.new) (T.fault_count tree.old) (T.fault_count tree.new) }
    {
        let Ok(pair) = self.pair().copy(alloc) else {
            return without_call(Did::Troubled(out_of_memory(false)));
        };
        match tree.rename(alloc, &pair.source, &pair.target) {
            Ok(()) => {
                self.stage = MovingStage::SyncTarget;
                with_call(Did::Moved(pair))
            }
            Err(error) => self.not_renamed(error, pair, replies),
        }
    }

    /// The renaming was refused. One that found no memory was not made.
    fn not_renamed(&mut self, error: TreeError, pair: Pair, replies: Replies) -> StepResult
        requires { pair ≡ self.old.pair }
        ensures did { NotRenamed replies self.old error result.did self.new }
        ensures calls { result.calls ≡ calls_made_for (Err error) }
    {
        let Pair { source, target } = pair;
        match error {
            TreeError::Memory => without_call(Did::Troubled(out_of_memory(false))),
            error => {
                let trouble = Trouble {
                    cause: Cause::Tree(error),
                    path: Some(target),
                    barrier: false,
                };
                with_call(self.passed_by(trouble, source, replies))
            }
        }
    }

    /// What stands at the target stays.
    fn keep(&mut self, alloc: Global) -> StepResult
        ensures did { Keeps self.old result.did self.new }
        ensures calls { result.calls ≡ 0 }
    {
        let Ok(target) = self.pair.target.copy(alloc) else {
            return without_call(Did::Troubled(out_of_memory(false)));
        };
        self.stage = MovingStage::PassedOver;
        without_call(Did::Kept(target))
    }

    /// The two folders are merged: what lies in the source, by these names, are sources of their own, so
    /// the move is done with it. The paths of the report come first, as those of a renaming do.
    fn merge(&mut self, alloc: Global, names: Names) -> StepResult
        requires told { AreShort self.old.pair names × IsAscending names }
        ensures did { IsMergedOr self.old names result.did self.new }
        ensures calls { result.calls ≡ 0 }
    {
        let Ok(pair) = self.pair().copy(alloc) else {
            return without_call(Did::Troubled(out_of_memory(false)));
        };
        let _count = names.as_slice().len();
        self.stage = MovingStage::PassedOver;
        without_call(Did::Merges(Transfer::ByMove, pair, names))
    }

    /// A look at the thing was refused, or it can't be moved. Want of memory is always told.
    fn passed_or_troubled(
        &mut self,
        alloc: Global,
        trouble: Trouble,
        replies: Replies,
    ) -> StepResult
        requires apart { trouble.barrier ≡ false }
        ensures did { NotTaken replies self.old trouble result.did self.new }
        ensures calls { result.calls ≡ 0 }
    {
        if let Cause::Memory = trouble.cause {
            return without_call(Did::Troubled(out_of_memory(false)));
        }
        let Ok(source) = self.pair().source.copy(alloc) else {
            return without_call(Did::Troubled(out_of_memory(false)));
        };
        without_call(self.passed_by(trouble, source, replies))
    }

    /// The report of a trouble, or that the thing is passed over, where troubles of its kind are.
    fn passed_by(&mut self, trouble: Trouble, source: Path, replies: Replies) -> Did
        requires apart { trouble.barrier ≡ false }
        ensures { PassesOver replies self.old trouble source result self.new }
    {
        if !replies.skips().passes_over(&trouble) {
            return Did::Troubled(trouble);
        }
        self.stage = MovingStage::PassedOver;
        Did::Skipped(source, trouble.cause)
    }

    /// The folder that is synced next, where one is.
    fn owed(&self) -> &Path
        ensures { result.now ≡ owed_folder self.now }
    {
        match self.stage {
            MovingStage::SyncTarget => &self.folder,
            MovingStage::Take | MovingStage::SyncSource => &self.source_folder,
            MovingStage::Finish | MovingStage::PassedOver => &self.source_folder,
        }
    }

    /// Syncs a folder in which a name was changed.
    fn sync<T: Tree>(&mut self, alloc: Global, tree: &mut T, replies: Replies) -> StepResult
        requires stage { is_dirty self.old.stage ≡ true }
        ensures { MovingStep replies self.old self.new result.did result.calls (T.contents tree.old)
            (T.contents tree.new) (T.fault_count tree.old) (T.fault_count tree.new) }
    {
        let _replies = replies;
        let owed = self.owed();
        let Ok(folder) = owed.copy(alloc) else {
            return without_call(Did::Troubled(out_of_memory(true)));
        };
        match tree.sync_folder(alloc, owed) {
            Ok(()) => {
                self.note_synced();
                with_call(Did::Barrier)
            }
            Err(error) => refused(error, folder, true),
        }
    }

    /// The one try of a job that is to end.
    fn try_sync<T: Tree>(&mut self, alloc: Global, tree: &mut T, ending: Ending) -> LastStepResult
        requires stage { is_dirty self.old.stage ≡ true }
        ensures { LastMovingStep ending self.old self.new result.did result.calls result.left
            (T.contents tree.old)
            (T.contents tree.new) (T.fault_count tree.old) (T.fault_count tree.new) }
    {
        let _ending = ending;
        let answer = tree.sync_folder(alloc, self.owed());
        self.note_synced();
        tried(answer)
    }

    /// That folder was synced, or tried in vain by a job that is to end.
    fn note_synced(&mut self)
        requires stage { is_dirty self.old.stage ≡ true }
        ensures { self.new ≡ record self.old { stage = synced_to self.old.pair self.old.stage } }
    {
        self.stage = self.after_sync();
    }

    /// Where the move stands then. A folder that holds both names is synced once.
    fn after_sync(&self) -> MovingStage
        requires stage { is_dirty self.now.stage ≡ true }
        ensures { result ≡ synced_to self.now.pair self.now.stage }
    {
        if self.owes_target() {
            return after_target(self.folder(), self.source_folder());
        }
        MovingStage::Finish
    }
}
