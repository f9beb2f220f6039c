//! The carrying of one file or link to another mount, a piece of work at each step: its copy is made by a
//! part, as copies are; then the target's folder is synced, the source is removed, and its folder synced.
ghost use Rattle.std.specs.Prelude.{◌≡◌, None, Some, true, option_map};
ghost use Rattle.job_reports.specs.Paths.{folder_of};
ghost use Rattle.mc_text.specs.Routes.{parent_of};
ghost use Rattle.copy_file.specs.Copying.{places as places_of};
ghost use Rattle.carry_job.specs.CarrySteps.{CarryStep, CarrySkips};
ghost use Rattle.carry_job.specs.Carryings.{at_barrier, begun_carrying, carrying, is_fresh};
ghost use Rattle.carry_job.specs.Carryings.{is_source_dirty, is_target_dirty, left_at, part_at};
ghost use Rattle.carry_job.specs.Carryings.{taken_anew as stage_anew};
ghost use Rattle.carry_job.specs.LastCarrySteps.{LastCarryStep};

use crate::skipping::{skip, taken_anew};
use crate::stage::{
    CarryStage, is_barrier, is_fresh_at, owes_source, owes_target, part_in, part_of,
};
use crate::winding::wind;
use crate::working::work;
use copy_file::{CopyPaths, FolderState};
use job_answers::Replies;
use job_reports::{Cause, Did, Ending, LastStepResult, PartTest, StepResult};
use mc_text::Path;
use std::alloc::Global;
use std::marker::Model;
use std::mem;
use tree_trait::Tree;

/// The carrying of one file or link.
#[derive(Debug, Drop)]
pub struct ThingCarrying {
    places: CopyPaths,
    stage: CarryStage,
}

impl Model for ThingCarrying {
    ghost use Rattle.carry_job.specs.Carryings.{Carrying, IsHeld, IsOwn, carrying};

    ghost Value = { Carrying };

    ghost view = { λ c. carrying c.places c.stage };

    ghost invariant = { λ c. IsHeld c.places × IsOwn c.places c.stage };
}

impl ThingCarrying {
    /// The carrying of the thing at `source` to `target`, by the job of this number. The two folders hold
    /// them.
    pub fn new(
        job: u32,
        source: Path,
        source_folder: Path,
        target: Path,
        folder: Path,
    ) -> ThingCarrying
        requires source { parent_of source ≡ Some source_folder }
        requires target { parent_of target ≡ Some folder }
        ensures { result ≡ begun_carrying (places_of job source target) }
    {
        ThingCarrying {
            places: CopyPaths::new(job, source, source_folder, target, folder),
            stage: CarryStage::Take {
                folder: FolderState::Synced,
            },
        }
    }

    /// Does the next piece of work, where this was answered to the job's questions. What is asked is asked
    /// again, until an answer stands.
    pub fn step<T: Tree, P: PartTest>(
        &mut self,
        alloc: Global,
        tree: &mut T,
        parts: &P,
        replies: Replies,
    ) -> StepResult
        requires going { left_at self.old.stage ≡ None }
        ensures steps { CarryStep (λ path. P.is_free parts.now path ≡ true) replies self.old self.new
            result.did result.calls
            (T.contents tree.old) (T.contents tree.new) (T.fault_count tree.old) (T.fault_count tree.new) }
        ensures going { left_at self.new.stage ≡ None }
    {
        let stage = mem::replace(&mut self.stage, CarryStage::PassedOver);
        let moved = work(alloc, tree, parts, &self.places, stage, replies);
        self.stage = moved.stage;
        StepResult {
            did: moved.did,
            calls: moved.calls,
        }
    }

    /// The thing is not carried. A part that stands is to be removed; where the copy stands already, the
    /// thing stands twice.
    pub fn skip(&mut self, alloc: Global, cause: Cause) -> Did
        ensures skips { CarrySkips cause self.old result self.new }
        ensures going { left_at self.new.stage ≡ left_at self.old.stage }
    {
        let stage = mem::replace(&mut self.stage, CarryStage::PassedOver);
        let skipped = skip(alloc, &self.places, stage, cause);
        self.stage = skipped.stage;
        skipped.did
    }

    /// What was refused is tried again. A thing whose part stands is copied anew, once that was removed;
    /// behind the copy the refused call alone is made again.
    pub fn retry(&mut self)
        ensures anew { self.new ≡ carrying self.old.places (stage_anew self.old.stage) }
        ensures going { left_at self.new.stage ≡ left_at self.old.stage }
    {
        self.stage = taken_anew(mem::replace(&mut self.stage, CarryStage::PassedOver));
    }

    /// Makes the next of the last steps of a job that is to end so. After the end the carrying is to be let
    /// go.
    pub fn wind_up<T: Tree>(
        &mut self,
        alloc: Global,
        tree: &mut T,
        ending: Ending,
    ) -> LastStepResult
        ensures { LastCarryStep ending self.old self.new result.did result.calls result.left
            (T.contents tree.old) (T.contents tree.new) (T.fault_count tree.old) (T.fault_count tree.new) }
    {
        let stage = mem::replace(&mut self.stage, CarryStage::PassedOver);
        let last = wind(alloc, tree, &self.places, stage, ending);
        self.stage = last.stage;
        LastStepResult {
            did: last.did,
            calls: last.calls,
            left: last.left,
        }
    }

    /// The part that stands.
    pub fn part(&self) -> Option<&Path>
        ensures { option_map (λ part. part.now) result ≡ part_at self.now.stage }
    {
        part_in(&self.stage)
    }

    /// The part that stands, where the carrying is given up.
    pub fn into_part(self) -> Option<Path>
        ensures { result ≡ part_at self.stage }
    {
        let ThingCarrying { places: _, stage } = self;
        part_of(stage)
    }

    /// What is carried.
    pub fn source(&self) -> &Path
        ensures { result.now ≡ self.now.places.source }
    {
        self.places.source()
    }

    /// The folder in which it is, or was.
    pub fn source_folder(&self) -> &Path
        ensures { result.now ≡ folder_of self.now.places.source }
    {
        self.places.source_folder()
    }

    /// Where it is to come.
    pub fn target(&self) -> &Path
        ensures { result.now ≡ self.now.places.target }
    {
        self.places.target()
    }

    /// The folder of the target.
    pub fn folder(&self) -> &Path
        ensures { result.now ≡ folder_of self.now.places.target }
    {
        self.places.folder()
    }

    /// Whether the target's folder has a change of names that no sync has brought onto the disk,
    /// as far as this carrying goes.
    pub fn is_target_dirty(&self) -> bool
        ensures { result ≡ is_target_dirty self.now.stage }
    {
        owes_target(&self.stage)
    }

    /// Whether the source's folder has.
    pub fn is_source_dirty(&self) -> bool
        ensures { result ≡ is_source_dirty self.now.stage }
    {
        owes_source(&self.stage)
    }

    /// Whether nothing was changed yet.
    pub fn is_fresh(&self) -> bool
        ensures { result ≡ is_fresh self.now.stage }
    {
        is_fresh_at(&self.stage)
    }

    /// Whether the next call is at a barrier, where nothing can be skipped.
    pub fn is_at_barrier(&self) -> bool
        ensures { result ≡ at_barrier self.now.stage }
    {
        is_barrier(&self.stage)
    }
}
