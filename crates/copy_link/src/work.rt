//! The next piece of a link's copy, by its stage.
ghost use Rattle.std.specs.Prelude.{◌≡◌, true};
ghost use Rattle.copy_link.specs.LinkCopying.{after_clean as stage_after, copying, is_ready};
ghost use Rattle.copy_link.specs.LinkSteps.{Makes, MovesOn, moved_by};

use crate::calls::{make_part, read_text};
use crate::places::Places;
use crate::stage::{Next, Stage};
use copy_file::FolderState;
use job_reports::{
    Did, Stop, out_of_memory, remove_part, rename_thing, stopped_before, sync_names,
};
use mc_text::Path;
use std::alloc::Global;
use std::convert::AsStr;
use tree_trait::Tree;

/// What a step did, how many changing calls it made, and where the copy stands then.
#[derive(Debug, Drop)]
pub(crate) struct AfterStep {
    pub(crate) did: Did,
    pub(crate) calls: u64,
    pub(crate) stage: Stage,
    pub(crate) folder: FolderState,
}

/// Does the next piece of work.
pub(crate) fn work<T: Tree>(
    alloc: Global,
    tree: &mut T,
    places: &Places,
    stage: Stage,
    folder: FolderState,
) -> AfterStep
    requires { is_ready stage folder ≡ true }
    ensures { MovesOn (copying places.now stage folder) result (T.contents tree.old) (T.contents tree.new)
        (T.fault_count tree.old) (T.fault_count tree.new) }
{
    match stage {
        Stage::Make => make(alloc, tree, places, folder),
        Stage::Place => place(alloc, tree, places, folder),
        Stage::Clean { next } => clean(alloc, tree, places, next, folder),
        Stage::Decided => sync(alloc, tree, places, folder),
        Stage::Left => unreachable!(),
        Stage::Again => unreachable!(),
    }
}

/// A trouble leaves the copy where it stood.
fn troubled(stop: Stop, stage: Stage, folder: FolderState) -> AfterStep
    ensures { result ≡ moved_by stop stage folder }
{
    AfterStep {
        did: Did::Troubled(stop.trouble),
        calls: stop.calls,
        stage,
        folder,
    }
}

fn make<T: Tree>(alloc: Global, tree: &mut T, places: &Places, folder: FolderState) -> AfterStep
    ensures { MovesOn (copying places.now Stage.Make folder) result (T.contents tree.old)
        (T.contents tree.new)
        (T.fault_count tree.old) (T.fault_count tree.new) }
{
    match read_and_make(alloc, tree, places) {
        Ok(made) => AfterStep {
            did: Did::Began(made),
            calls: 1,
            stage: Stage::Place,
            folder: FolderState::Dirty,
        },
        Err(stop) => troubled(stop, Stage::Make, folder),
    }
}

/// Reads the link, and makes one like it; the part's path.
fn read_and_make<T: Tree>(alloc: Global, tree: &mut T, places: &Places) -> Result<Path, Stop>
    ensures { Makes places.now result (T.contents tree.old) (T.contents tree.new)
        (T.fault_count tree.old) (T.fault_count tree.new) }
{
    let text = match read_text(alloc, tree, places.source()) {
        Ok(text) => text,
        Err(trouble) => return Err(stopped_before(trouble)),
    };
    let Ok(made) = places.part().copy(alloc) else {
        return Err(stopped_before(out_of_memory(false)));
    };
    match make_part(alloc, tree, places.part(), text.as_str()) {
        Ok(_) => Ok(made),
        Err(stop) => Err(stop),
    }
}

/// A link needs no sync of its own before it is renamed: an image has it with its text, or has it not.
fn place<T: Tree>(alloc: Global, tree: &mut T, places: &Places, folder: FolderState) -> AfterStep
    ensures { MovesOn (copying places.now Stage.Place folder) result (T.contents tree.old)
        (T.contents tree.new)
        (T.fault_count tree.old) (T.fault_count tree.new) }
{
    let Ok(placed) = places.target().copy(alloc) else {
        return troubled(stopped_before(out_of_memory(false)), Stage::Place, folder);
    };
    match rename_thing(alloc, tree, places.part(), places.target()) {
        Ok(calls) => AfterStep {
            did: Did::Placed(placed),
            calls,
            stage: Stage::Decided,
            folder: FolderState::Dirty,
        },
        Err(stop) => troubled(stop, Stage::Place, folder),
    }
}

fn clean<T: Tree>(
    alloc: Global,
    tree: &mut T,
    places: &Places,
    next: Next,
    folder: FolderState,
) -> AfterStep
    ensures { MovesOn (copying places.now (Stage.Clean next) folder) result (T.contents tree.old)
        (T.contents tree.new)
        (T.fault_count tree.old) (T.fault_count tree.new) }
{
    let stage = Stage::Clean { next };
    let Ok(cleaned) = places.part().copy(alloc) else {
        return troubled(stopped_before(out_of_memory(true)), stage, folder);
    };
    match remove_part(alloc, tree, places.part()) {
        Ok(calls) => AfterStep {
            did: Did::Cleaned(cleaned),
            calls,
            stage: after_clean(next),
            folder: FolderState::Dirty,
        },
        Err(stop) => troubled(stop, stage, folder),
    }
}

fn after_clean(next: Next) -> Stage
    ensures { result ≡ stage_after next }
{
    match next {
        Next::Again => Stage::Again,
        Next::Decided => Stage::Decided,
    }
}

fn sync<T: Tree>(alloc: Global, tree: &mut T, places: &Places, folder: FolderState) -> AfterStep
    requires { is_ready Stage.Decided folder ≡ true }
    ensures { MovesOn (copying places.now Stage.Decided folder) result (T.contents tree.old)
        (T.contents tree.new)
        (T.fault_count tree.old) (T.fault_count tree.new) }
{
    match sync_names(alloc, tree, places.folder()) {
        Ok(calls) => AfterStep {
            did: Did::Barrier,
            calls,
            stage: Stage::Decided,
            folder: FolderState::Synced,
        },
        Err(stop) => troubled(stop, Stage::Decided, folder),
    }
}
