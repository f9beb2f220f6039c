//! What a step of a job does, by its course: a piece of its work, the sync of what an ended job left dirty,
//! a skip, or one of its last steps.
ghost use Rattle.std.specs.Prelude.{◌≡◌, true};
ghost use Rattle.tree_trait.specs.Change.{current};
ghost use Rattle.tree_trait.specs.Answers.{IfKnown};
ghost use Rattle.tree_trait.specs.CrashImages.{Among};
ghost use Rattle.copy_move.specs.Jobs.{IsGoing, course_after, is_fresh};
ghost use Rattle.copy_move.specs.Settling.{NoneForFolder, NoneOwed};
ghost use Rattle.copy_move.specs.JobStepReports.{OwedSyncStep, OwnStep, RunStep, SkipSteps, WindingStep};

use super::{Course, Halt, Run};
use crate::owed::first_owed;
use job_reports::{Cause, Did, Ending, PartTest, StepResult, out_of_memory};
use job_unsynced::{Dirty, without_call};
use mc_text::Path;
use mode_job::sync_thing;
use std::alloc::Global;
use tree_trait::Tree;

impl Run {
    /// The next piece of the work, or what has to come before it.
    pub(super) fn go_on<T: Tree, P: PartTest>(
        &mut self,
        alloc: Global,
        tree: &mut T,
        parts: &P,
        dirty: &mut Dirty,
    ) -> StepResult
        requires course { self.old.course ≡ Course.GoesOn }
        ensures steps { RunStep (λ path. P.is_free parts.now path ≡ true) (record {
          old = self.old;
          new = self.new;
          did = result.did;
          calls = result.calls;
          dirty = dirty.old;
          dirty_after = dirty.new;
          before = T.contents tree.old;
          after = T.contents tree.new;
          faults = T.fault_count tree.old;
          faults_after = T.fault_count tree.new;
        }) }
    {
        if self.work.is_fresh() {
            self.begin(alloc, tree, parts, dirty)
        } else {
            self.work_on(alloc, tree, parts, dirty)
        }
    }

    /// The step of a job that has changed nothing yet: it syncs what an ended job left dirty there, or may
    /// make its first change where there is nothing.
    fn begin<T: Tree, P: PartTest>(
        &mut self,
        alloc: Global,
        tree: &mut T,
        parts: &P,
        dirty: &mut Dirty,
    ) -> StepResult
        requires course { self.old.course ≡ Course.GoesOn }
        requires fresh { is_fresh self.old.work ≡ true }
        ensures steps { RunStep (λ path. P.is_free parts.now path ≡ true) (record {
          old = self.old;
          new = self.new;
          did = result.did;
          calls = result.calls;
          dirty = dirty.old;
          dirty_after = dirty.new;
          before = T.contents tree.old;
          after = T.contents tree.new;
          faults = T.fault_count tree.old;
          faults_after = T.fault_count tree.new;
        }) }
    {
        let Some(owed) = first_owed(dirty, alloc, tree, &self.work) else {
            return self.work_on(alloc, tree, parts, dirty);
        };
        let Ok(owed) = owed.copy(alloc) else {
            self.course = Course::OwedSyncFailed(Cause::Memory);
            return without_call(Did::Troubled(out_of_memory(true)));
        };
        self.sync_owed(alloc, tree, dirty, owed)
    }

    /// Syncs what stands at a path that an ended job left dirty, as what it is.
    fn sync_owed<T: Tree>(
        &mut self,
        alloc: Global,
        tree: &mut T,
        dirty: &mut Dirty,
        owed: Path,
    ) -> StepResult
        requires course { self.old.course ≡ Course.GoesOn }
        requires going { IsGoing self.old.work }
        requires fresh { is_fresh self.old.work ≡ true }
        requires owed { Among dirty.old owed }
        ensures steps { OwedSyncStep (record {
          old = self.old;
          new = self.new;
          did = result.did;
          calls = result.calls;
          dirty = dirty.old;
          dirty_after = dirty.new;
          before = T.contents tree.old;
          after = T.contents tree.new;
          faults = T.fault_count tree.old;
          faults_after = T.fault_count tree.new;
        }) }
    {
        match sync_thing(alloc, tree, &owed) {
            Ok(calls) => {
                dirty.remove(&owed);
                StepResult {
                    did: Did::Barrier,
                    calls,
                }
            }
            Err(stop) => {
                self.course = Course::OwedSyncFailed(stop.trouble.cause);
                StepResult {
                    did: Did::Troubled(stop.trouble),
                    calls: stop.calls,
                }
            }
        }
    }

    /// The next piece of the work. One that may make the first change comes only where nothing dirty is owed.
    fn work_on<T: Tree, P: PartTest>(
        &mut self,
        alloc: Global,
        tree: &mut T,
        parts: &P,
        dirty: &mut Dirty,
    ) -> StepResult
        requires course { self.old.course ≡ Course.GoesOn }
        requires settled { is_fresh self.old.work ≡ true
            → IfKnown (T.contents tree.old) (λ log. NoneOwed (current log) self.old.work dirty.old) }
        requires cleared { is_fresh self.old.work ≡ true
            → IfKnown (T.contents tree.old) (λ log. NoneForFolder (current log) self.old.work dirty.old) }
        ensures steps { OwnStep (λ path. P.is_free parts.now path ≡ true) (record {
          old = self.old;
          new = self.new;
          did = result.did;
          calls = result.calls;
          dirty = dirty.old;
          dirty_after = dirty.new;
          before = T.contents tree.old;
          after = T.contents tree.new;
          faults = T.fault_count tree.old;
          faults_after = T.fault_count tree.new;
        }) }
    {
        let stepped = self.work.step(alloc, tree, parts, dirty, self.replies);
        self.course = after_report(&stepped.did);
        stepped
    }

    /// Reports what is left as it is.
    pub(super) fn skip(&mut self, alloc: Global, cause: Cause) -> StepResult
        requires course { self.old.course ≡ Course.Skips cause }
        ensures skips { SkipSteps cause self.old self.new result.did result.calls }
    {
        let did = self.work.skip(alloc, cause);
        self.course = after_report(&did);
        StepResult { did, calls: 0 }
    }

    /// One of the last steps.
    pub(super) fn wind_up<T: Tree>(
        &mut self,
        alloc: Global,
        tree: &mut T,
        ending: Ending,
        dirty: &mut Dirty,
    ) -> StepResult
        requires course { self.old.course ≡ Course.Ends ending }
        ensures steps { WindingStep ending (record {
          old = self.old;
          new = self.new;
          did = result.did;
          calls = result.calls;
          dirty = dirty.old;
          dirty_after = dirty.new;
          before = T.contents tree.old;
          after = T.contents tree.new;
          faults = T.fault_count tree.old;
          faults_after = T.fault_count tree.new;
        }) }
    {
        let last = self.work.wind_up(alloc, tree, ending, dirty);
        StepResult {
            did: last.did,
            calls: last.calls,
        }
    }
}

/// A job that asked, or whose call was refused, waits, else it goes on.
fn after_report(did: &Did) -> Course
    ensures { result ≡ course_after did.now }
{
    match did {
        Did::Asked(_) => Course::Asking,
        Did::Troubled(trouble) => Course::InTrouble(Halt {
            cause: trouble.cause,
            barrier: trouble.barrier,
        }),
        _ => Course::GoesOn,
    }
}
