//! The next piece of work at a folder, by its stage.
ghost use Rattle.std.specs.Prelude.{◌≡◌, ◌≤◌, true, Some, None};
ghost use Rattle.mc_text.specs.Routes.{Route};
ghost use Rattle.copy_folders.specs.FolderCopying.{IsSound, copying, folder_mode, is_ready, owed_mode};
ghost use Rattle.copy_folders.specs.FolderSteps.{MovesOn, moved_by};

use crate::calls::make_folder;
use crate::stage::{FolderDid, NamesState, Stage};
use job_reports::{Stop, out_of_memory, set_mode, stopped_before, sync_names};
use mc_text::Path;
use std::alloc::Global;
use tree_trait::Tree;

/// A folder is made with these bits of its mode: its owner may list, change and search it, so
/// that its children can come.
const OWNER_MODE: u16 = 0o700;

/// What a step did, how many changing calls it made, and where the folder stands then.
#[derive(Debug, Drop)]
pub(crate) struct AfterStep {
    pub(crate) did: FolderDid,
    pub(crate) calls: u64,
    pub(crate) stage: Stage,
    pub(crate) names: NamesState,
}

/// Does the next piece of work.
pub(crate) fn work<T: Tree>(
    alloc: Global,
    tree: &mut T,
    target: &Path,
    stage: Stage,
    names: NamesState,
) -> AfterStep
    requires ready { is_ready stage ≡ true }
    requires sound { IsSound stage }
    ensures { (source : Route)
        → MovesOn (copying source target.now stage names) result (T.contents tree.old) (T.contents tree.new)
        (T.fault_count tree.old) (T.fault_count tree.new) }
{
    match stage {
        Stage::Make { mode } => make(alloc, tree, target, mode, names),
        Stage::Close { owed } => finish(alloc, tree, target, owed, names),
        Stage::Fill { .. } => unreachable!(),
        Stage::Done => unreachable!(),
    }
}

/// The mode that is owed comes first, then the sync.
fn finish<T: Tree>(
    alloc: Global,
    tree: &mut T,
    target: &Path,
    owed: Option<u16>,
    names: NamesState,
) -> AfterStep
    requires sound { IsSound (Stage.Close owed) }
    ensures { (source : Route) → MovesOn (copying source target.now (Stage.Close owed) names) result
        (T.contents tree.old) (T.contents tree.new)
        (T.fault_count tree.old) (T.fault_count tree.new) }
{
    match owed {
        Some(mode) => give_mode(alloc, tree, target, mode, names),
        None => sync_or_close(alloc, tree, target, names),
    }
}

fn sync_or_close<T: Tree>(
    alloc: Global,
    tree: &mut T,
    target: &Path,
    names: NamesState,
) -> AfterStep
    ensures { (source : Route) → MovesOn (copying source target.now (Stage.Close None) names) result
        (T.contents tree.old) (T.contents tree.new)
        (T.fault_count tree.old) (T.fault_count tree.new) }
{
    match names {
        NamesState::Dirty => sync(alloc, tree, target),
        NamesState::Synced => closed(),
    }
}

/// A trouble leaves the folder where it stood.
fn troubled(stop: Stop, stage: Stage, names: NamesState) -> AfterStep
    ensures { result ≡ moved_by stop stage names }
{
    AfterStep {
        did: FolderDid::Troubled(stop.trouble),
        calls: stop.calls,
        stage,
        names,
    }
}

fn make<T: Tree>(
    alloc: Global,
    tree: &mut T,
    target: &Path,
    mode: u16,
    names: NamesState,
) -> AfterStep
    requires { mode ≤ 0o7777 }
    ensures { (source : Route) → MovesOn (copying source target.now (Stage.Make mode) names) result
        (T.contents tree.old) (T.contents tree.new)
        (T.fault_count tree.old) (T.fault_count tree.new) }
{
    let stage = Stage::Make { mode };
    let Ok(made) = target.copy(alloc) else {
        return troubled(stopped_before(out_of_memory(false)), stage, names);
    };
    match make_folder(alloc, tree, target, mode | OWNER_MODE) {
        Ok(calls) => AfterStep {
            did: FolderDid::Made(made),
            calls,
            stage: Stage::Fill {
                owed: owed_of(mode),
            },
            names,
        },
        Err(stop) => troubled(stop, stage, names),
    }
}

/// The mode that a made folder is still to be given: the source's, where it was made with another.
fn owed_of(mode: u16) -> Option<u16>
    ensures { result ≡ owed_mode mode }
{
    if mode | OWNER_MODE == mode {
        return None;
    }
    Some(mode)
}

/// The mode comes before the sync, which brings it onto the disk with the names.
fn give_mode<T: Tree>(
    alloc: Global,
    tree: &mut T,
    target: &Path,
    mode: u16,
    names: NamesState,
) -> AfterStep
    requires { mode ≤ 0o7777 }
    ensures { (source : Route) → MovesOn (copying source target.now (Stage.Close (Some mode)) names) result
        (T.contents tree.old) (T.contents tree.new)
        (T.fault_count tree.old) (T.fault_count tree.new) }
{
    let stage = Stage::Close { owed: Some(mode) };
    let Ok(set) = target.copy(alloc) else {
        return troubled(stopped_before(out_of_memory(false)), stage, names);
    };
    match set_mode(alloc, tree, target, mode) {
        Ok(calls) => AfterStep {
            did: FolderDid::Set(set),
            calls,
            stage: Stage::Close { owed: None },
            names: NamesState::Dirty,
        },
        Err(stop) => troubled(stop, stage, names),
    }
}

pub(crate) fn sync<T: Tree>(alloc: Global, tree: &mut T, target: &Path) -> AfterStep
    ensures stays { result.stage ≡ Stage.Close None }
    ensures moves { (source : Route) → MovesOn (copying source target.now (Stage.Close None) NamesState.Dirty)
        result (T.contents tree.old) (T.contents tree.new)
        (T.fault_count tree.old) (T.fault_count tree.new) }
{
    let stage = Stage::Close { owed: None };
    match sync_names(alloc, tree, target) {
        Ok(calls) => AfterStep {
            did: FolderDid::Barrier,
            calls,
            stage,
            names: NamesState::Synced,
        },
        Err(stop) => troubled(stop, stage, NamesState::Dirty),
    }
}

/// Nothing is owed: no call is made.
fn closed() -> AfterStep
    ensures { result ≡ record {
      did = FolderDid.Closed;
      calls = 0;
      stage = Stage.Done;
      names = NamesState.Synced;
    } }
{
    AfterStep {
        did: FolderDid::Closed,
        calls: 0,
        stage: Stage::Done,
        names: NamesState::Synced,
    }
}
