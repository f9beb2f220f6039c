//! The next piece of work of a setting, by its stage, and its last try.
ghost use Rattle.std.specs.Prelude.{◌≡◌, ◌≤◌, None};
ghost use Rattle.job_reports.specs.declared.report.Did.{Did};
ghost use Rattle.job_reports.specs.declared.report.Ending.{Ending};
ghost use Rattle.mode_job.specs.Settings.{setting};
ghost use Rattle.mode_job.specs.SettingSteps.{MovesOn, NotGiven, SyncTried, TriedSync, moved_by, sync_by};
ghost use Rattle.tree_trait.specs.Answers.{HasCause, IfKnown, Performs};
ghost use Rattle.tree_trait.specs.declared.calls.TreeError.{TreeError};

use crate::calls::sync_thing;
use crate::setting::Stage;
use job_answers::Replies;
use job_reports::{
    Cause, Did, Ending, LastStepResult, Stop, calls_made, out_of_memory, refusal_in, set_mode,
    stopped_before,
};
use mc_text::{Kind, Path};
use std::alloc::Global;
use tree_trait::{Tree, TreeError};

/// What a step did, how many changing calls it made, and where the setting stands then.
#[derive(Debug, Drop)]
pub(crate) struct AfterStep {
    pub(crate) did: Did,
    pub(crate) calls: u64,
    pub(crate) stage: Stage,
}

/// Does the next piece of work.
pub(crate) fn work<T: Tree>(
    alloc: Global,
    tree: &mut T,
    path: &Path,
    mode: u16,
    stage: Stage,
    replies: Replies,
) -> AfterStep
    requires { mode ≤ 0o7777 }
    ensures { MovesOn replies (setting path.now mode stage) result (T.contents tree.old) (T.contents tree.new)
        (T.fault_count tree.old) (T.fault_count tree.new) }
{
    match stage {
        Stage::Give => give(alloc, tree, path, mode, replies),
        Stage::Sync => sync(alloc, tree, path, mode, replies),
        Stage::Done => finished(),
    }
}

fn give<T: Tree>(alloc: Global, tree: &mut T, path: &Path, mode: u16, replies: Replies) -> AfterStep
    requires { mode ≤ 0o7777 }
    ensures { MovesOn replies (setting path.now mode Stage.Give) result (T.contents tree.old)
        (T.contents tree.new)
        (T.fault_count tree.old) (T.fault_count tree.new) }
{
    let Ok(set) = path.copy(alloc) else {
        return troubled(stopped_before(out_of_memory(false)), Stage::Give);
    };
    match set_mode(alloc, tree, path, mode) {
        Ok(calls) => AfterStep {
            did: Did::Set(set),
            calls,
            stage: Stage::Sync,
        },
        Err(stop) => not_given(stop, set, mode, replies),
    }
}

/// The mode wasn't given: that is told, or the thing keeps its mode, where troubles of that kind are passed
/// over. Want of memory is always told.
fn not_given(stop: Stop, path: Path, mode: u16, replies: Replies) -> AfterStep
    ensures { NotGiven replies (setting path mode Stage.Give) stop result }
{
    let _mode = mode;
    if let Cause::Memory = stop.trouble.cause {
        return troubled(stop, Stage::Give);
    }
    if !replies.skips().passes_over(&stop.trouble) {
        return troubled(stop, Stage::Give);
    }
    AfterStep {
        did: Did::Skipped(path, stop.trouble.cause),
        calls: stop.calls,
        stage: Stage::Done,
    }
}

fn sync<T: Tree>(alloc: Global, tree: &mut T, path: &Path, mode: u16, replies: Replies) -> AfterStep
    ensures { MovesOn replies (setting path.now mode Stage.Sync) result (T.contents tree.old)
        (T.contents tree.new)
        (T.fault_count tree.old) (T.fault_count tree.new) }
{
    let _mode = mode;
    let _replies = replies;
    match sync_thing(alloc, tree, path) {
        Ok(calls) => AfterStep {
            did: Did::Barrier,
            calls,
            stage: Stage::Done,
        },
        Err(stop) => troubled(stop, Stage::Sync),
    }
}

fn finished() -> AfterStep
    ensures { result ≡ record { did = Did.Ended Ending.Finished None; calls = 0; stage = Stage.Done } }
{
    AfterStep {
        did: Did::Ended {
            ending: Ending::Finished,
            part: None,
        },
        calls: 0,
        stage: Stage::Done,
    }
}

/// A trouble leaves the setting where it stood.
fn troubled(stop: Stop, stage: Stage) -> AfterStep
    ensures { result ≡ moved_by stop stage }
{
    AfterStep {
        did: Did::Troubled(stop.trouble),
        calls: stop.calls,
        stage,
    }
}

/// The one try of a job that is to end: a look at what the thing is, and its sync. It
/// takes no memory of its own.
pub(crate) fn try_sync<T: Tree>(alloc: Global, tree: &mut T, path: &Path) -> LastStepResult
    ensures { SyncTried path.now result (T.contents tree.old) (T.contents tree.new)
        (T.fault_count tree.old) (T.fault_count tree.new) }
{
    match tree.stat(alloc, path) {
        Ok(meta) => tried(try_kind(alloc, tree, path, meta.kind)),
        Err(error) => LastStepResult {
            did: Did::Barrier,
            calls: 0,
            left: Some(error),
        },
    }
}

fn try_kind<T: Tree>(alloc: Global, tree: &mut T, path: &Path, kind: Kind) -> Result<(), TreeError>
    ensures answer { IfKnown (T.contents tree.old) (λ log.
        Performs log (sync_by kind path.now) result (T.contents tree.new)) }
    ensures stays_unknown { T.contents tree.old ≡ None → T.contents tree.new ≡ None }
    ensures cause { HasCause TreeError.Fault (T.fault_count tree.old) (T.fault_count tree.new) result }
{
    match kind {
        Kind::Folder => tree.sync_folder(alloc, path),
        Kind::File => tree.sync_file(alloc, path),
        Kind::Link => tree.sync_file(alloc, path),
        Kind::Other => tree.sync_file(alloc, path),
    }
}

fn tried(answer: Result<(), TreeError>) -> LastStepResult
    ensures { TriedSync answer result }
{
    LastStepResult {
        did: Did::Barrier,
        calls: calls_made(answer),
        left: refusal_in(answer),
    }
}
