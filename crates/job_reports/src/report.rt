//! What the step of a job reports.
ghost use Rattle.std.specs.Prelude.{◌≡◌, IfOk};
ghost use Rattle.job_reports.specs.Reports.{ends};

use crate::job::Pair;
use crate::question::Question;
use mc_text::{Kind, Names, NoMemory, Path};
use std::alloc::Global;
use tree_trait::TreeError;

/// Why a job can't go on.
#[derive(Clone, Copy, Debug, Drop, PartialEq, Eq)]
pub enum Cause {
    /// A call of the tree was refused.
    Tree(TreeError),
    /// Something of this kind stands at the target.
    TargetKind(Kind),
    /// The source is no file.
    SpecialSource,
    /// It lies more than 256 folders below its source.
    TooDeep,
    /// All 1,000 names of a part are taken.
    PartTaken,
    /// A path would have more than 4,096 bytes.
    TooLong,
    /// So many names in a folder are no text, so they can't be shown or worked.
    Unnamed(u64),
    /// The source was said to have so many bytes, and gave so many.
    Changed { said: u64, got: u64 },
    /// No memory was left.
    Memory,
}

/// A job in trouble: why, at which path, and whether it stands at a barrier, where nothing can be skipped.
#[derive(Debug, Drop)]
pub struct Trouble {
    pub cause: Cause,
    pub path: Option<Path>,
    pub barrier: bool,
}

impl Trouble {
    /// The same once more.
    pub fn copy(&self, alloc: Global) -> Result<Trouble, NoMemory>
        ensures { IfOk result (λ copy. copy ≡ self.now) }
    {
        Ok(Trouble {
            cause: self.cause,
            path: copy_of(alloc, &self.path)?,
            barrier: self.barrier,
        })
    }
}

/// A path once more, if there is one.
fn copy_of(alloc: Global, path: &Option<Path>) -> Result<Option<Path>, NoMemory>
    ensures { IfOk result (λ copy. copy ≡ path.now) }
{
    match path {
        None => Ok(None),
        Some(path) => Ok(Some(path.copy(alloc)?)),
    }
}

/// How a job ended.
#[derive(Clone, Copy, Debug, Drop, PartialEq, Eq)]
pub enum Ending {
    Finished,
    Aborted,
    Killed,
    /// There was no memory for a step's entry.
    NoMemory,
}

/// How what lies in a folder comes to the folder at its target, with which it is merged.
#[derive(Clone, Copy, Debug, Drop, PartialEq, Eq)]
pub enum Transfer {
    /// It is copied.
    ByCopy,
    /// It is moved, and then the folder, which is empty where nothing stayed, is removed.
    ByMove,
}

/// What a step did.
#[derive(Debug, Drop)]
pub enum Did {
    /// The part at this path was made, empty.
    Began(Path),
    /// So many bytes went to the part, 1 to 65,536.
    Chunk(u32),
    /// The part was renamed to this path, with all bytes and the mode of the source.
    Placed(Path),
    /// The thing at this path is gone from its folder.
    Removed(Path),
    /// A new, empty folder stands at this path, or a new link.
    Made(Path),
    /// The thing at this path was given its mode.
    Set(Path),
    /// What stands at this path stays: a folder in which something was left, or a target that isn't replaced.
    Kept(Path),
    /// The source at this path was left as it is.
    Skipped(Path, Cause),
    /// The part at this path was removed.
    Cleaned(Path),
    /// What was changed is on the disk, or in a job's last steps its sync was tried.
    Barrier,
    /// It waits for an answer: is what stands at the target to be replaced?
    Asked(Question),
    /// Both source and target are folders, and that at the target stays: what lies in the source, by these
    /// names, comes to it next.
    Merges(Transfer, Pair, Names),
    /// The source was renamed to the target: what stood there stands here, with all that lies in it.
    Moved(Pair),
    Troubled(Trouble),
    /// The job ended; `part` is a part file that it could not remove.
    Ended { ending: Ending, part: Option<Path> },
}

/// What a step did, and how many changing calls of the tree it made.
#[derive(Debug, Drop)]
pub struct StepResult {
    pub did: Did,
    pub calls: u64,
}

/// What a last step did, how many changing calls of the tree it made, and the refusal of a sync that was
/// tried in vain: the folder then has names that no sync has brought onto the disk.
#[derive(Debug, Drop)]
pub struct LastStepResult {
    pub did: Did,
    pub calls: u64,
    pub left: Option<TreeError>,
}

/// Whether a report is that of an end.
pub fn is_end(did: &Did) -> bool
    ensures { result ≡ ends did.now }
{
    matches!(did, Did::Ended { .. })
}
