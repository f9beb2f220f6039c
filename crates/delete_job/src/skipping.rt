//! What is left as it is.
ghost use Rattle.std.specs.Prelude.{◌≡◌, IfOk, OnErr};
ghost use Rattle.delete_job.specs.TreeDeletionSteps.{LeavesFolder, Skips, TakesOff};

use crate::deletion::{Deletion, Depth, stage_after};
use job_reports::{Cause, Did, out_of_memory};
use mc_text::{NoMemory, Path, PathError};
use std::alloc::Global;

impl Deletion {
    /// What is in trouble is left as it is, with all below it.
    pub fn skip(&mut self, alloc: Global, cause: Cause) -> Did
        ensures { Skips cause self.old result self.new }
    {
        match self.take_off(alloc) {
            Ok(path) => {
                self.stage = stage_after(self.stage, &self.path, &path);
                Did::Skipped(path, cause)
            }
            Err(_) => Did::Troubled(out_of_memory(self.is_at_barrier())),
        }
    }

    /// What stands in trouble is passed, and its path is given; without memory all is as it was. Where a
    /// path below a folder would be too long, the folder is left.
    fn take_off(&mut self, alloc: Global) -> Result<Path, NoMemory>
        ensures taken { IfOk result (λ path. TakesOff path self.old self.new) }
        ensures same { OnErr result (self.new ≡ self.old) }
    {
        match self.depth {
            Depth::Top => self.take_off_top(alloc),
            Depth::Inside => self.take_off_next(alloc),
        }
    }

    fn take_off_top(&mut self, alloc: Global) -> Result<Path, NoMemory>
        requires depth { self.old.depth ≡ Depth.Top }
        ensures taken { IfOk result (λ path. TakesOff path self.old self.new) }
        ensures same { OnErr result (self.new ≡ self.old) }
    {
        Ok(self.path.copy(alloc)?)
    }

    fn take_off_next(&mut self, alloc: Global) -> Result<Path, NoMemory>
        requires depth { self.old.depth ≡ Depth.Inside }
        ensures taken { IfOk result (λ path. TakesOff path self.old self.new) }
        ensures same { OnErr result (self.new ≡ self.old) }
    {
        let Some(name) = self.walk.next_name() else {
            return self.take_off_folder(alloc);
        };
        match self.walk.folder().join(alloc, name) {
            Ok(path) => {
                self.pass_name(true);
                Ok(path)
            }
            Err(PathError::TooLong(_)) => self.take_off_folder(alloc),
            Err(_) => Err(NoMemory),
        }
    }

    /// The folder that is worked is left.
    fn take_off_folder(&mut self, alloc: Global) -> Result<Path, NoMemory>
        ensures taken { IfOk result (λ path. LeavesFolder path self.old self.new) }
        ensures same { OnErr result (self.new ≡ self.old) }
    {
        let path = self.worked().copy(alloc)?;
        self.leave(true);
        Ok(path)
    }
}
