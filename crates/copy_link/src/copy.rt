//! The copy of one link, a piece of work at each step.
ghost use Rattle.std.specs.Prelude.{◌≡◌, Some, None, true};
ghost use Rattle.mc_text.specs.Routes.{parent_of};
ghost use Rattle.job_reports.specs.Paths.{folder_of};
ghost use Rattle.copy_link.specs.LastTries.{RemovalTried, SyncTried};
ghost use Rattle.copy_link.specs.LinkCopying.{at_barrier, copying, has_part, is_dirty, is_ready};
ghost use Rattle.copy_link.specs.LinkCopying.{is_removable, places, skipped_stage as skipped_to};
ghost use Rattle.copy_link.specs.LinkCopying.{taken_anew as stage_anew};
ghost use Rattle.copy_link.specs.LinkSteps.{Skips, StepsOn};

use crate::places::Places;
use crate::removal::{Removal, RemovalStep};
use crate::stage::{Next, Stage};
use crate::work::work;
use copy_file::FolderState;
use job_reports::{Cause, Did, LastStepResult, StepResult, calls_made, out_of_memory, refusal_in};
use mc_text::Path;
use std::alloc::Global;
use std::marker::Model;
use tree_trait::Tree;

/// The copy of one link by a part.
#[derive(Debug, Drop)]
pub struct LinkCopy {
    places: Places,
    stage: Stage,
    folder: FolderState,
}

impl Model for LinkCopy {
    ghost use Rattle.copy_link.specs.LinkCopying.{LinkCopying, copying};

    ghost Value = { LinkCopying };

    ghost view = { λ c. copying c.places c.stage c.folder };
}

impl LinkCopy {
    /// A copy of the link at `source` to `target`, which `folder` holds, by way of `part` beside it.
    pub fn new(source: Path, target: Path, folder: Path, part: Path) -> LinkCopy
        requires { parent_of target ≡ Some folder }
        ensures { result ≡ copying (places source target part) Stage.Make FolderState.Synced }
    {
        LinkCopy {
            places: Places::new(source, target, folder, part),
            stage: Stage::Make,
            folder: FolderState::Synced,
        }
    }

    /// What is to be done next.
    pub fn stage(&self) -> Stage
        ensures { result ≡ self.now.stage }
    {
        self.stage
    }

    /// The path of the part.
    pub fn part(&self) -> &Path
        ensures { result.now ≡ self.now.part }
    {
        self.places.part()
    }

    /// The path of the part, where the copy is given up.
    pub fn into_part(self) -> Path
        ensures { result ≡ self.part }
    {
        let LinkCopy {
            places,
            stage: _,
            folder: _,
        } = self;
        places.into_part()
    }

    /// Whether the part stands.
    pub fn has_part(&self) -> bool
        ensures { result ≡ has_part self.now.stage }
    {
        match self.stage {
            Stage::Place | Stage::Clean { .. } | Stage::Left => true,
            Stage::Make | Stage::Again | Stage::Decided => false,
        }
    }

    /// The folder of the target.
    pub fn folder(&self) -> &Path
        ensures { result.now ≡ folder_of self.now.target }
    {
        self.places.folder()
    }

    /// Whether the folder has a change of names that no sync has brought onto the disk,
    /// as far as this copy goes.
    pub fn is_dirty(&self) -> bool
        ensures { result ≡ is_dirty self.now.folder }
    {
        match self.folder {
            FolderState::Dirty => true,
            FolderState::Synced => false,
        }
    }

    /// Whether the next call is at a barrier, where nothing can be skipped.
    pub fn is_at_barrier(&self) -> bool
        ensures { result ≡ at_barrier self.now.stage }
    {
        match self.stage {
            Stage::Clean { .. } | Stage::Left | Stage::Decided => true,
            Stage::Make | Stage::Place | Stage::Again => false,
        }
    }

    /// Does the next piece of work, which is at most one changing call of the tree.
    pub fn step<T: Tree>(&mut self, alloc: Global, tree: &mut T) -> StepResult
        requires { is_ready self.old.stage self.old.folder ≡ true }
        ensures { StepsOn self.old self.new result.did result.calls
            (T.contents tree.old) (T.contents tree.new) (T.fault_count tree.old) (T.fault_count tree.new) }
    {
        let moved = work(alloc, tree, &self.places, self.stage, self.folder);
        self.stage = moved.stage;
        self.folder = moved.folder;
        StepResult {
            did: moved.did,
            calls: moved.calls,
        }
    }

    /// The link is not copied. A part that stands is to be removed.
    pub fn skip(&mut self, alloc: Global, cause: Cause) -> Did
        ensures { Skips cause self.old result self.new }
    {
        let Ok(source) = self.places.source().copy(alloc) else {
            return Did::Troubled(out_of_memory(self.is_at_barrier()));
        };
        self.stage = skipped(self.stage);
        Did::Skipped(source, cause)
    }

    /// What was refused is tried again. A link that isn't placed is taken up anew, once its part is gone.
    pub fn retry(&mut self)
        ensures { self.new ≡ record self.old { stage = stage_anew self.old.stage } }
    {
        self.stage = taken_anew(self.stage);
    }

    /// The one try to remove the part of a job that is to end. It takes no memory of its own.
    pub fn try_removal<T: Tree>(&mut self, alloc: Global, tree: &mut T) -> RemovalStep
        requires { is_removable self.old.stage ≡ true }
        ensures { RemovalTried self.old result self.new (T.contents tree.old) (T.contents tree.new)
            (T.fault_count tree.old) (T.fault_count tree.new) }
    {
        match tree.remove_file(alloc, self.places.part()) {
            Ok(()) => {
                self.stage = Stage::Decided;
                self.folder = FolderState::Dirty;
                RemovalStep {
                    removal: Removal::Cleaned,
                    calls: 1,
                }
            }
            Err(error) => {
                self.stage = Stage::Left;
                RemovalStep {
                    removal: Removal::Stays(error),
                    calls: calls_made(Err(error)),
                }
            }
        }
    }

    /// The one try to sync the folder of a job that is to end. It takes no memory of its own.
    pub fn try_sync<T: Tree>(&mut self, alloc: Global, tree: &mut T) -> LastStepResult
        ensures { SyncTried self.old result self.new (T.contents tree.old) (T.contents tree.new)
            (T.fault_count tree.old) (T.fault_count tree.new) }
    {
        let answer = tree.sync_folder(alloc, self.places.folder());
        self.folder = FolderState::Synced;
        LastStepResult {
            did: Did::Barrier,
            calls: calls_made(answer),
            left: refusal_in(answer),
        }
    }
}

fn skipped(stage: Stage) -> Stage
    ensures { result ≡ skipped_to stage }
{
    match stage {
        Stage::Make => Stage::Decided,
        Stage::Place | Stage::Clean { .. } => Stage::Clean {
            next: Next::Decided,
        },
        Stage::Left => Stage::Left,
        Stage::Again => Stage::Decided,
        Stage::Decided => Stage::Decided,
    }
}

fn taken_anew(stage: Stage) -> Stage
    ensures { result ≡ stage_anew stage }
{
    match stage {
        Stage::Make => Stage::Again,
        Stage::Place => Stage::Clean { next: Next::Again },
        Stage::Clean { next } => Stage::Clean { next },
        Stage::Left => Stage::Left,
        Stage::Again => Stage::Again,
        Stage::Decided => Stage::Decided,
    }
}
