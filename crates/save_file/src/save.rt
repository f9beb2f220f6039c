//! The save of one file, a piece of work at each step.
ghost use Rattle.std.specs.Prelude.{◌≡◌, None, Some, IfOk, true, option_map};
ghost use Rattle.mc_text.specs.Routes.{parent_of};
ghost use Rattle.job_reports.specs.Paths.{folder_of};
ghost use Rattle.copy_file.specs.Copying.{at_barrier, is_dirty, is_fresh, part_at, taken_anew};
ghost use Rattle.copy_file.specs.LastSteps.{left_at};
ghost use Rattle.save_file.specs.Saving.{begun_save};
ghost use Rattle.save_file.specs.SaveSteps.{Skips, StepsOn, WindsOn};

use crate::work::work;
use copy_file::FileCopy;
use job_reports::{Cause, Did, Ending, LastStepResult, PartTest, StepResult};
use mc_text::{Bytes, NoMemory, Path};
use std::alloc::Global;
use std::marker::Model;
use tree_trait::Tree;

/// The save of bytes as the file at a path. A file or a link that stands there is replaced.
#[derive(Debug, Drop)]
pub struct FileSave {
    /// The copy of the bytes, whose source is the target, since it has none of its own.
    copy: FileCopy,
    bytes: Bytes,
}

impl Model for FileSave {
    ghost use Rattle.save_file.specs.Saving.{IsOwn, Saving, saving};

    ghost Value = { Saving };

    ghost view = { λ s. saving s.copy s.bytes };

    ghost invariant = { λ s. IsOwn (saving s.copy s.bytes) };
}

impl FileSave {
    /// A save of these bytes at `target`, which `folder` holds.
    pub fn new(
        alloc: Global,
        job: u32,
        target: Path,
        folder: Path,
        bytes: Bytes,
    ) -> Result<FileSave, NoMemory>
        requires { parent_of target ≡ Some folder }
        ensures { IfOk result (λ save. save ≡ begun_save job target bytes) }
    {
        let source = target.copy(alloc)?;
        let source_folder = folder.copy(alloc)?;
        Ok(FileSave {
            copy: FileCopy::new(job, source, source_folder, target, folder),
            bytes,
        })
    }

    /// The part that stands.
    pub fn part(&self) -> Option<&Path>
        ensures { option_map (λ part. part.now) result ≡ part_at self.now.copy.stage }
    {
        self.copy.part()
    }

    /// The part that stands, where the save is given up.
    pub fn into_part(self) -> Option<Path>
        ensures { result ≡ part_at self.copy.stage }
    {
        let FileSave { copy, bytes: _ } = self;
        copy.into_part()
    }

    /// The file that is saved.
    pub fn target(&self) -> &Path
        ensures { result.now ≡ self.now.copy.target }
    {
        self.copy.target()
    }

    /// The folder that holds it.
    pub fn folder(&self) -> &Path
        ensures { result.now ≡ folder_of self.now.copy.target }
    {
        self.copy.folder()
    }

    /// Whether the folder has a change of names that no sync has brought onto the disk,
    /// as far as this save goes.
    pub fn is_dirty(&self) -> bool
        ensures { result ≡ is_dirty self.now.copy.folder }
    {
        self.copy.is_dirty()
    }

    /// Whether nothing was changed yet.
    pub fn is_fresh(&self) -> bool
        ensures { result ≡ is_fresh self.now.copy.stage self.now.copy.folder }
    {
        self.copy.is_fresh()
    }

    /// Whether the next call is at a barrier, where nothing can be skipped.
    pub fn is_at_barrier(&self) -> bool
        ensures { result ≡ at_barrier self.now.copy.stage }
    {
        self.copy.is_at_barrier()
    }

    /// Does the next piece of work. The target is looked at anew where the save is begun anew.
    pub fn step<T: Tree, P: PartTest>(
        &mut self,
        alloc: Global,
        tree: &mut T,
        parts: &P,
    ) -> StepResult
        requires { left_at self.old.copy.stage ≡ None }
        ensures steps { StepsOn (λ path. P.is_free parts.now path ≡ true) self.old self.new
            result.did result.calls
            (T.contents tree.old) (T.contents tree.new) (T.fault_count tree.old) (T.fault_count tree.new) }
        ensures ready { left_at self.new.copy.stage ≡ None }
    {
        work(alloc, tree, parts, &mut self.copy, self.bytes.0.as_slice())
    }

    /// The file is not saved. A part that stands is to be removed.
    pub fn skip(&mut self, alloc: Global, cause: Cause) -> Did
        ensures skips { Skips cause self.old result self.new }
        ensures ready { left_at self.new.copy.stage ≡ left_at self.old.copy.stage }
    {
        self.copy.skip(alloc, cause)
    }

    /// What was refused is tried again. A file whose part stands is saved anew.
    pub fn retry(&mut self)
        ensures anew { self.new
            ≡ record self.old { copy = record self.old.copy { stage = taken_anew self.old.copy.stage } } }
        ensures ready { left_at self.new.copy.stage ≡ left_at self.old.copy.stage }
    {
        self.copy.retry();
    }

    /// Makes the next of the last steps of a job that is to end so. After the end the save is to be let go.
    pub fn wind_up<T: Tree>(
        &mut self,
        alloc: Global,
        tree: &mut T,
        ending: Ending,
    ) -> LastStepResult
        ensures { WindsOn ending self.old self.new result.did result.calls result.left
            (T.contents tree.old) (T.contents tree.new) (T.fault_count tree.old) (T.fault_count tree.new) }
    {
        self.copy.wind_up(alloc, tree, ending)
    }
}
