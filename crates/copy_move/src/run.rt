//! A job that is worked, step by step: it does its work, waits with a question or in a trouble for an
//! answer, and makes its last steps where it is to end early.
ghost use Rattle.std.specs.Prelude.{◌≡◌, IfOk, Some, false, option_map, true};
ghost use Rattle.job_reports.specs.Jobs.{is_workable};
ghost use Rattle.copy_move.specs.Jobs.{asks_on, first_work, kind_of, part_of, path_of, waits_on};
ghost use Rattle.copy_move.specs.JobStepReports.{RunStep};
ghost use Rattle.copy_move.specs.Told.{running, turned_job};

mod answering;
mod stepping;

use crate::starting::begun_work;
use crate::work::Work;
use job_answers::Replies;
use job_reports::{Cause, Ending, Job, JobKind, PartTest, StepResult};
use job_unsynced::Dirty;
use mc_text::{NoMemory, Path};
use std::alloc::Global;
use std::marker::Model;
use tree_trait::Tree;

/// Why a job waits for an answer, and whether it stands at a barrier, where nothing can be skipped.
#[derive(Clone, Copy, Debug, Drop, PartialEq, Eq)]
pub struct Halt {
    pub cause: Cause,
    pub barrier: bool,
}

/// Whether a job goes on.
#[derive(Clone, Copy, Debug, Drop, PartialEq, Eq)]
pub enum Course {
    GoesOn,
    /// Something stands at the target of what it copies or moves. The job waits for an answer.
    Asking,
    /// A call was refused, or there was no memory. The job waits for an answer.
    InTrouble(Halt),
    /// What an ended job left dirty could not be synced. The job has changed nothing yet,
    /// and waits for an answer.
    OwedSyncFailed(Cause),
    /// What stands next is to be left as it is, since this stood in the way.
    Skips(Cause),
    /// It makes its last steps, and then it ends so.
    Ends(Ending),
}

/// A job that is worked.
#[derive(Debug)]
pub struct Run {
    id: u32,
    work: Work,
    course: Course,
    replies: Replies,
}

/// Written by hand, so that it is a call wherever a job is let go of: the prover would look through a
/// derived one there, with all that each kind of work holds.
impl Drop for Run {
    fn drop(self) {
        let Run {
            id: _,
            work,
            course: _,
            replies: _,
        } = self;
        drop(work);
    }
}

impl Model for Run {
    ghost use Rattle.job_reports.specs.Jobs.{is_workable};
    ghost use Rattle.copy_move.specs.Jobs.{Running, IsSound};

    ghost Value = { Running };

    ghost view = { λ r. record { id = r.id; work = r.work; course = r.course; replies = r.replies } };

    ghost invariant = { λ r. IsSound r.course r.work };
}

impl Run {
    /// Starts a job with the plan of one source, which isn't the root.
    pub fn start(alloc: Global, job: &Job, id: u32) -> Result<Run, NoMemory>
        requires sound { is_workable job.now ≡ true }
        ensures id { IfOk result (λ run. run.id ≡ id) }
        ensures started { IfOk result (λ run. option_map (running id) (first_work id job.now) ≡ Some run) }
    {
        let work = begun_work(alloc, job, id)?;
        Ok(Run {
            id,
            work,
            course: Course::GoesOn,
            replies: Replies::new(),
        })
    }

    /// The job as it goes on with its next source, of which this is the plan: under its number; what was
    /// answered for all items, and for all troubles of a kind, goes on to hold.
    pub fn turn(&self, alloc: Global, next: &Job) -> Result<Run, NoMemory>
        requires sound { is_workable next.now ≡ true }
        ensures turned { IfOk result (λ run. turned_job next.now self.now ≡ Some run) }
    {
        let work = begun_work(alloc, next, self.id)?;
        Ok(Run {
            id: self.id,
            work,
            course: Course::GoesOn,
            replies: self.replies.for_next(),
        })
    }

    /// The job's number.
    pub fn id(&self) -> u32
        ensures { result ≡ self.now.id }
    {
        self.id
    }

    /// What the job does.
    pub fn kind(&self) -> JobKind
        ensures { result ≡ kind_of self.now.work }
    {
        self.work.kind()
    }

    /// Its source; of a thing that is made, or given a mode, that thing.
    pub fn path(&self) -> &Path
        ensures { result.now ≡ path_of self.now.work }
    {
        self.work.path()
    }

    /// Whether the job waits for an answer, to a question or in a trouble.
    pub fn waits(&self) -> bool
        ensures { result ≡ waits_on self.now.course }
    {
        match self.course {
            Course::Asking | Course::InTrouble(_) | Course::OwedSyncFailed(_) => true,
            Course::GoesOn | Course::Skips(_) | Course::Ends(_) => false,
        }
    }

    /// Whether it waits for an answer to a question.
    pub fn asks(&self) -> bool
        ensures { result ≡ asks_on self.now.course }
    {
        match self.course {
            Course::Asking => true,
            Course::GoesOn | Course::InTrouble(_) | Course::OwedSyncFailed(_) => false,
            Course::Skips(_) | Course::Ends(_) => false,
        }
    }

    /// The part that stands.
    pub fn part(&self) -> Option<&Path>
        ensures { option_map (λ part. part.now) result ≡ part_of self.now.work }
    {
        self.work.part()
    }

    /// Makes the job's next step. Where an ended job left something dirty on the mount on which this job is
    /// to change names, or in what it is to delete, or anything at all where this job is to set a mode,
    /// that is synced first, one a step. After an end the job is to be let go. A folder is among the dirty
    /// ones from the job's first change there, and a thing from its new mode on, until it was synced.
    pub fn step<T: Tree, P: PartTest>(
        &mut self,
        alloc: Global,
        tree: &mut T,
        parts: &P,
        dirty: &mut Dirty,
    ) -> StepResult
        requires ready { waits_on self.old.course ≡ false }
        ensures steps { RunStep (λ path. P.is_free parts.now path ≡ true) (record {
          old = self.old;
          new = self.new;
          did = result.did;
          calls = result.calls;
          dirty = dirty.old;
          dirty_after = dirty.new;
          before = T.contents tree.old;
          after = T.contents tree.new;
          faults = T.fault_count tree.old;
          faults_after = T.fault_count tree.new;
        }) }
    {
        match self.course {
            Course::GoesOn => self.go_on(alloc, tree, parts, dirty),
            Course::Skips(cause) => self.skip(alloc, cause),
            Course::Ends(ending) => self.wind_up(alloc, tree, ending, dirty),
            Course::Asking | Course::InTrouble(_) | Course::OwedSyncFailed(_) => unreachable!(),
        }
    }

    /// Ends the job without a call of the tree, and gives the part that stands.
    pub fn give_up(self) -> Option<Path>
        ensures { result ≡ part_of self.work }
    {
        let Run {
            id: _,
            work,
            course: _,
            replies: _,
        } = self;
        work.into_part()
    }
}
