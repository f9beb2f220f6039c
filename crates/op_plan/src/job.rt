//! Jobs: what will be done, and to which paths.
ghost use Rattle.std.specs.Prelude.{◌≡◌, IfOk};

use job_reports::Pairs;
use mc_text::{Bytes, NoMemory, Path, Paths, Text};
use std::alloc::Global;

/// A job, as it was planned.
#[derive(Debug, Drop)]
pub enum Job {
    /// Copies each source to its target, with all that lies below it.
    Copy(Pairs),
    /// Moves each source to its target.
    Move(Pairs),
    /// Deletes these, with all that lies below them.
    Delete(Paths),
    /// Makes an empty folder of mode 0o755.
    MakeFolder(Path),
    /// Sets the mode of each of these, and of nothing below it.
    SetMode(Paths, u16),
    /// Makes a link with this text.
    MakeLink(Path, Text),
    /// Makes a file of these bytes, or replaces the one that is there.
    Save(Path, Bytes),
}

impl Job {
    /// The same job once more.
    pub fn copy(&self, alloc: Global) -> Result<Job, NoMemory>
        ensures { IfOk result (λ copy. copy ≡ self.now) }
    {
        match self {
            Job::Copy(pairs) => Ok(Job::Copy(pairs.copy(alloc)?)),
            Job::Move(pairs) => Ok(Job::Move(pairs.copy(alloc)?)),
            Job::Delete(paths) => Ok(Job::Delete(paths.copy(alloc)?)),
            Job::MakeFolder(path) => Ok(Job::MakeFolder(path.copy(alloc)?)),
            Job::SetMode(paths, mode) => Ok(Job::SetMode(paths.copy(alloc)?, *mode)),
            Job::MakeLink(path, text) => Ok(Job::MakeLink(path.copy(alloc)?, text.copy(alloc)?)),
            Job::Save(path, bytes) => Ok(Job::Save(path.copy(alloc)?, bytes.copy(alloc)?)),
        }
    }
}
