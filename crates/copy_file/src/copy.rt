//! The copy of one file, a piece of work at each step.
ghost use Rattle.std.specs.Prelude.{◌≡◌, None, Some, length, true, option_map};
ghost use Rattle.mc_text.specs.Routes.{parent_of};
ghost use Rattle.copy_file.specs.Copying.{IsSound, at_barrier, begun_copy, is_dirty, is_fresh, part_at};
ghost use Rattle.copy_file.specs.Copying.{skipped_stage as skipped_to, taken_anew as stage_anew};
ghost use Rattle.job_reports.specs.Paths.{folder_of};
ghost use Rattle.copy_file.specs.CopySteps.{Skips, StepsOn};
ghost use Rattle.copy_file.specs.LastSteps.{WindsOn, left_at};
ghost use Rattle.copy_file.specs.Looking.{HasRange};
ghost use Rattle.copy_file.specs.PartSteps.{IsNext, MakesPart, WritesNext};

use crate::item::CopyPaths;
use crate::stage::{FolderState, Next, SourceFacts, Stage};
use crate::winding::wind;
use crate::work::{AfterStep, begin_known, work, write_next};
use job_reports::{Cause, Did, Ending, LastStepResult, PartTest, StepResult, out_of_memory};
use mc_text::Path;
use std::alloc::Global;
use std::marker::Model;
use std::mem;
use tree_trait::Tree;

/// The copy of one file to a path at which nothing stands, or what an answer replaces.
#[derive(Debug, Drop)]
pub struct FileCopy {
    item: CopyPaths,
    stage: Stage,
    folder: FolderState,
}

impl Model for FileCopy {
    ghost use Rattle.copy_file.specs.Copying.{Copying, IsSound, copying};

    ghost Value = { Copying };

    ghost view = { λ c. copying c.item c.stage c.folder };

    ghost invariant = { λ c. IsSound c.stage c.folder };
}

impl FileCopy {
    /// A copy of the file at `source` to `target`. The two folders hold them.
    pub fn new(job: u32, source: Path, source_folder: Path, target: Path, folder: Path) -> FileCopy
        requires source { parent_of source ≡ Some source_folder }
        requires target { parent_of target ≡ Some folder }
        ensures { result ≡ begun_copy job source target }
    {
        FileCopy {
            item: CopyPaths::new(job, source, source_folder, target, folder),
            stage: Stage::Begin,
            folder: FolderState::Synced,
        }
    }

    /// The part that stands.
    pub fn part(&self) -> Option<&Path>
        ensures { option_map (λ part. part.now) result ≡ part_at self.now.stage }
    {
        match &self.stage {
            Stage::Fill { part, .. } => Some(part),
            Stage::Clean { part, .. } => Some(part),
            Stage::Left { part } => Some(part),
            Stage::Begin => None,
            Stage::Decided => None,
        }
    }

    /// The part that stands, where the copy is given up.
    pub fn into_part(self) -> Option<Path>
        ensures { result ≡ part_at self.stage }
    {
        let FileCopy {
            item: _,
            stage,
            folder: _,
        } = self;
        part_in(stage)
    }

    /// What is to be done next.
    pub fn stage(&self) -> &Stage
        ensures { result.now ≡ self.now.stage }
    {
        &self.stage
    }

    /// The file that is copied.
    pub fn source(&self) -> &Path
        ensures { result.now ≡ self.now.source }
    {
        self.item.source()
    }

    /// Where it is to come.
    pub fn target(&self) -> &Path
        ensures { result.now ≡ self.now.target }
    {
        self.item.target()
    }

    /// The folder of the target.
    pub fn folder(&self) -> &Path
        ensures { result.now ≡ folder_of self.now.target }
    {
        self.item.folder()
    }

    /// Whether the folder has a change of names that no sync has brought onto the disk,
    /// as far as this copy goes.
    pub fn is_dirty(&self) -> bool
        ensures { result ≡ is_dirty self.now.folder }
    {
        match self.folder {
            FolderState::Dirty => true,
            FolderState::Synced => false,
        }
    }

    /// Whether nothing was changed yet.
    pub fn is_fresh(&self) -> bool
        ensures { result ≡ is_fresh self.now.stage self.now.folder }
    {
        match (&self.stage, self.folder) {
            (Stage::Begin, FolderState::Synced) => true,
            _ => false,
        }
    }

    /// Whether the next call is at a barrier, where nothing can be skipped.
    pub fn is_at_barrier(&self) -> bool
        ensures { result ≡ at_barrier self.now.stage }
    {
        is_at_barrier(&self.stage)
    }

    /// Does the next piece of work, where nothing may stand at the target.
    pub fn step<T: Tree, P: PartTest>(
        &mut self,
        alloc: Global,
        tree: &mut T,
        parts: &P,
    ) -> StepResult
        requires { left_at self.old.stage ≡ None }
        ensures steps { StepsOn (λ path. P.is_free parts.now path ≡ true) self.old self.new
            result.did result.calls
            (T.contents tree.old) (T.contents tree.new) (T.fault_count tree.old) (T.fault_count tree.new) }
        ensures ready { left_at self.new.stage ≡ None }
        ensures sound { IsSound self.new.stage self.new.folder }
    {
        let stage = mem::replace(&mut self.stage, Stage::Decided);
        let moved = work(alloc, tree, parts, &self.item, stage, self.folder);
        self.stage = moved.stage;
        self.folder = moved.folder;
        StepResult {
            did: moved.did,
            calls: moved.calls,
        }
    }

    /// Makes the part of a file whose size and mode the caller knows, in place of a
    /// step that looks at a source.
    pub fn begin_with<T: Tree, P: PartTest>(
        &mut self,
        alloc: Global,
        tree: &mut T,
        parts: &P,
        facts: SourceFacts,
    ) -> StepResult
        requires stage { self.old.stage ≡ Stage.Begin }
        requires range { HasRange facts }
        ensures { MakesPart (λ path. P.is_free parts.now path ≡ true) facts self.old self.new
            result.did result.calls
            (T.contents tree.old) (T.contents tree.new) (T.fault_count tree.old) (T.fault_count tree.new) }
    {
        let moved = begin_known(alloc, tree, parts, &self.item, facts, self.folder);
        self.stage = moved.stage;
        self.folder = moved.folder;
        StepResult {
            did: moved.did,
            calls: moved.calls,
        }
    }

    /// Writes these bytes to the part, behind those that it has, in place of a step that reads a source.
    pub fn fill_with<T: Tree>(&mut self, alloc: Global, tree: &mut T, bytes: &[u8]) -> StepResult
        requires { IsNext self.old.stage (length bytes.now) }
        ensures writes { WritesNext bytes.now self.old.stage self.new.stage result.did result.calls
            (T.contents tree.old) (T.contents tree.new) (T.fault_count tree.old) (T.fault_count tree.new) }
        ensures stays { self.new ≡ record self.old { stage = self.new.stage } }
    {
        let stage = mem::replace(&mut self.stage, Stage::Decided);
        let moved = write_next(alloc, tree, stage, self.folder, bytes);
        self.stage = moved.stage;
        self.folder = moved.folder;
        StepResult {
            did: moved.did,
            calls: moved.calls,
        }
    }

    /// The file is not copied. A part that stands is to be removed.
    pub fn skip(&mut self, alloc: Global, cause: Cause) -> Did
        ensures skips { Skips cause self.old result self.new }
        ensures ready { left_at self.new.stage ≡ left_at self.old.stage }
    {
        let Ok(source) = self.item.source().copy(alloc) else {
            return Did::Troubled(out_of_memory(is_at_barrier(&self.stage)));
        };
        self.stage = skipped(mem::replace(&mut self.stage, Stage::Decided));
        Did::Skipped(source, cause)
    }

    /// What was refused is tried again. A file whose part stands is copied anew.
    pub fn retry(&mut self)
        ensures anew { self.new ≡ record self.old { stage = stage_anew self.old.stage } }
        ensures ready { left_at self.new.stage ≡ left_at self.old.stage }
    {
        self.stage = taken_anew(mem::replace(&mut self.stage, Stage::Decided));
    }

    /// Makes the next of the last steps of a job that is to end so. After the end the copy is to be let go.
    pub fn wind_up<T: Tree>(
        &mut self,
        alloc: Global,
        tree: &mut T,
        ending: Ending,
    ) -> LastStepResult
        ensures { WindsOn ending self.old self.new result.did result.calls result.left
            (T.contents tree.old) (T.contents tree.new) (T.fault_count tree.old) (T.fault_count tree.new) }
    {
        let stage = mem::replace(&mut self.stage, Stage::Decided);
        let last_step = wind(alloc, tree, &self.item, stage, self.folder, ending);
        self.stage = last_step.stage;
        self.folder = last_step.folder;
        LastStepResult {
            did: last_step.did,
            calls: last_step.calls,
            left: last_step.left,
        }
    }
}

/// The part that a stage has.
fn part_in(stage: Stage) -> Option<Path>
    ensures { result ≡ part_at stage }
{
    match stage {
        Stage::Fill { part, .. } => Some(part),
        Stage::Clean { part, .. } => Some(part),
        Stage::Left { part } => Some(part),
        Stage::Begin => None,
        Stage::Decided => None,
    }
}

fn is_at_barrier(stage: &Stage) -> bool
    ensures { result ≡ at_barrier stage.now }
{
    match stage {
        Stage::Begin | Stage::Fill { .. } => false,
        Stage::Clean { .. } | Stage::Left { .. } | Stage::Decided => true,
    }
}

fn skipped(stage: Stage) -> Stage
    ensures { result ≡ skipped_to stage }
{
    match stage {
        Stage::Begin => Stage::Decided,
        Stage::Fill { part, .. } => Stage::Clean {
            part,
            next: Next::Decided,
        },
        Stage::Clean { part, .. } => Stage::Clean {
            part,
            next: Next::Decided,
        },
        Stage::Left { part } => Stage::Left { part },
        Stage::Decided => Stage::Decided,
    }
}

fn taken_anew(stage: Stage) -> Stage
    ensures { result ≡ stage_anew stage }
{
    match stage {
        Stage::Begin => Stage::Begin,
        Stage::Fill { part, .. } => Stage::Clean {
            part,
            next: Next::Begin,
        },
        Stage::Clean { part, next } => Stage::Clean { part, next },
        Stage::Left { part } => Stage::Left { part },
        Stage::Decided => Stage::Decided,
    }
}
