//! The question whether a thing is to be replaced.
ghost use Rattle.std.specs.Prelude.{◌≡◌, IfOk};
ghost use Rattle.job_reports.specs.Questions.{question_on};

use mc_text::{NoMemory, Path};
use std::alloc::Global;
use tree_trait::Meta;

/// Whether the source is to replace what stands at the target: their sizes in bytes, and the seconds of
/// their last changes. The size of a link is the bytes of its text.
#[derive(Debug, Drop)]
pub struct Question {
    pub source: Path,
    pub target: Path,
    pub source_size: u64,
    pub target_size: u64,
    pub source_time: i64,
    pub target_time: i64,
}

impl Question {
    /// The question on two paths, at which these things stand.
    pub fn new(
        alloc: Global,
        source: &Path,
        source_meta: &Meta,
        target: &Path,
        target_meta: &Meta,
    ) -> Result<Question, NoMemory>
        ensures { IfOk result
            (λ question. question ≡ question_on source.now source_meta.now target.now target_meta.now) }
    {
        Ok(Question {
            source: source.copy(alloc)?,
            target: target.copy(alloc)?,
            source_size: source_meta.size,
            target_size: target_meta.size,
            source_time: source_meta.mtime,
            target_time: target_meta.mtime,
        })
    }

    /// The same once more.
    pub fn copy(&self, alloc: Global) -> Result<Question, NoMemory>
        ensures { IfOk result (λ copy. copy ≡ self.now) }
    {
        Ok(Question {
            source: self.source.copy(alloc)?,
            target: self.target.copy(alloc)?,
            source_size: self.source_size,
            target_size: self.target_size,
            source_time: self.source_time,
            target_time: self.target_time,
        })
    }
}
