//! The next piece of a copy's work, by its stage.
ghost use Rattle.std.specs.Prelude.{◌≡◌, ◌<◌, ◌≤◌, ⊤, None, length, true};
ghost use Rattle.copy_file.specs.Copying.{IsSound, Places, after_clean as stage_after, copying};
ghost use Rattle.copy_file.specs.Chunks.{HasCount};
ghost use Rattle.copy_file.specs.PartSteps.{IsNext, MakesPart, WritesNext};
ghost use Rattle.copy_file.specs.CopySteps.{Begins, MovesOn, Names, moved_by};
ghost use Rattle.copy_file.specs.Looking.{HasRange};
ghost use Rattle.copy_file.specs.LastSteps.{left_at};

use crate::chunk::write_chunk;
use crate::item::CopyPaths;
use crate::looks::looks;
use crate::part_name::choose_part;
use crate::place::{PART_MODE, make_part, place, write_part};
use crate::stage::{FolderState, Next, SourceFacts, Stage};
use job_reports::{Did, Ending, PartTest, Stop, out_of_memory, remove_part, stopped_before};
use mc_text::Path;
use std::alloc::Global;
use tree_trait::Tree;

/// What a step did, how many changing calls it made, and where the copy stands then.
#[derive(Debug, Drop)]
pub(crate) struct AfterStep {
    pub(crate) did: Did,
    pub(crate) calls: u64,
    pub(crate) stage: Stage,
    pub(crate) folder: FolderState,
}

/// Does the next piece of work.
pub(crate) fn work<T: Tree, P: PartTest>(
    alloc: Global,
    tree: &mut T,
    parts: &P,
    item: &CopyPaths,
    stage: Stage,
    folder: FolderState,
) -> AfterStep
    requires ready { left_at stage ≡ None }
    requires sound { IsSound stage folder }
    ensures { MovesOn (λ path. P.is_free parts.now path ≡ true) (copying item.now stage folder) result
        (T.contents tree.old) (T.contents tree.new)
        (T.fault_count tree.old) (T.fault_count tree.new) }
{
    match stage {
        Stage::Begin => begin(alloc, tree, parts, item, folder),
        Stage::Fill { part, facts, done } => {
            if done < facts.size {
                fill(alloc, tree, item, part, facts, done)
            } else {
                finish_part(alloc, tree, item, part, facts, done)
            }
        }
        Stage::Clean { part, next } => clean(alloc, tree, item, part, next),
        Stage::Left { .. } => unreachable!(),
        Stage::Decided => conclude(alloc, tree, item, folder),
    }
}

/// A trouble leaves the copy where it stood.
pub(crate) fn troubled(stop: Stop, stage: Stage, folder: FolderState) -> AfterStep
    ensures { result ≡ moved_by stop stage folder }
{
    AfterStep {
        did: Did::Troubled(stop.trouble),
        calls: stop.calls,
        stage,
        folder,
    }
}

/// A part that was made, its path once more, and what the source was said to be.
#[derive(Debug, Drop)]
pub(crate) struct Made {
    pub(crate) part: Path,
    pub(crate) named: Path,
    pub(crate) facts: SourceFacts,
}

fn begin<T: Tree, P: PartTest>(
    alloc: Global,
    tree: &mut T,
    parts: &P,
    item: &CopyPaths,
    folder: FolderState,
) -> AfterStep
    ensures { MovesOn (λ path. P.is_free parts.now path ≡ true) (copying item.now Stage.Begin folder) result
        (T.contents tree.old) (T.contents tree.new)
        (T.fault_count tree.old) (T.fault_count tree.new) }
{
    match begin_part(alloc, tree, parts, item) {
        Ok(made) => AfterStep {
            did: Did::Began(made.named),
            calls: 1,
            stage: Stage::Fill {
                part: made.part,
                facts: made.facts,
                done: 0,
            },
            folder: FolderState::Dirty,
        },
        Err(stop) => troubled(stop, Stage::Begin, folder),
    }
}

fn begin_part<T: Tree, P: PartTest>(
    alloc: Global,
    tree: &mut T,
    parts: &P,
    item: &CopyPaths,
) -> Result<Made, Stop>
    ensures { Begins (λ path. P.is_free parts.now path ≡ true) item.now result (T.contents tree.old)
        (T.contents tree.new)
        (T.fault_count tree.old) (T.fault_count tree.new) }
{
    let facts = match looks(alloc, tree, item) {
        Ok(facts) => facts,
        Err(trouble) => return Err(stopped_before(trouble)),
    };
    make_named(alloc, tree, parts, item, facts)
}

/// Makes a part with the first name that is free, for a file of which this is known.
pub(crate) fn make_named<T: Tree, P: PartTest>(
    alloc: Global,
    tree: &mut T,
    parts: &P,
    item: &CopyPaths,
    facts: SourceFacts,
) -> Result<Made, Stop>
    requires { HasRange facts }
    ensures { Names (λ path. P.is_free parts.now path ≡ true) facts item.now result (T.contents tree.old)
        (T.contents tree.new)
        (T.fault_count tree.old) (T.fault_count tree.new) }
{
    let part = match choose_part(alloc, tree, parts, item) {
        Ok(part) => part,
        Err(trouble) => return Err(stopped_before(trouble)),
    };
    let Ok(named) = part.copy(alloc) else {
        return Err(stopped_before(out_of_memory(false)));
    };
    match make_part(alloc, tree, &part, facts.mode | PART_MODE) {
        Ok(_) => Ok(Made { part, named, facts }),
        Err(stop) => Err(stop),
    }
}

/// Makes the part of a file that is known, without a look at a source.
pub(crate) fn begin_known<T: Tree, P: PartTest>(
    alloc: Global,
    tree: &mut T,
    parts: &P,
    item: &CopyPaths,
    facts: SourceFacts,
    folder: FolderState,
) -> AfterStep
    requires { HasRange facts }
    ensures { MakesPart (λ path. P.is_free parts.now path ≡ true) facts (copying item.now Stage.Begin folder)
        (copying item.now result.stage result.folder) result.did result.calls (T.contents tree.old)
        (T.contents tree.new)
        (T.fault_count tree.old) (T.fault_count tree.new) }
{
    match make_named(alloc, tree, parts, item, facts) {
        Ok(made) => AfterStep {
            did: Did::Began(made.named),
            calls: 1,
            stage: Stage::Fill {
                part: made.part,
                facts: made.facts,
                done: 0,
            },
            folder: FolderState::Dirty,
        },
        Err(stop) => troubled(stop, Stage::Begin, folder),
    }
}

/// Writes these bytes to the part, behind those that it has.
pub(crate) fn write_next<T: Tree>(
    alloc: Global,
    tree: &mut T,
    stage: Stage,
    folder: FolderState,
    bytes: &[u8],
) -> AfterStep
    requires fits { IsNext stage (length bytes.now) }
    requires sound { IsSound stage folder }
    ensures writes { WritesNext bytes.now stage result.stage result.did result.calls (T.contents tree.old)
        (T.contents tree.new)
        (T.fault_count tree.old) (T.fault_count tree.new) }
    ensures folder { result.folder ≡ folder }
    ensures sound { IsSound result.stage folder }
{
    match stage {
        Stage::Fill { part, facts, done } => write_behind(
            alloc, tree, part, facts, done, folder, bytes,
        ),
        Stage::Begin => unreachable!(),
        Stage::Clean { .. } => unreachable!(),
        Stage::Left { .. } => unreachable!(),
        Stage::Decided => unreachable!(),
    }
}

fn write_behind<T: Tree>(
    alloc: Global,
    tree: &mut T,
    part: Path,
    facts: SourceFacts,
    done: u64,
    folder: FolderState,
    bytes: &[u8],
) -> AfterStep
    requires fits { HasCount facts done (length bytes.now) }
    requires sound { IsSound (Stage.Fill part facts done) folder }
    ensures writes { WritesNext bytes.now (Stage.Fill part facts done) result.stage result.did result.calls
        (T.contents tree.old) (T.contents tree.new)
        (T.fault_count tree.old) (T.fault_count tree.new) }
    ensures folder { result.folder ≡ folder }
    ensures sound { IsSound result.stage folder }
{
    match write_part(alloc, tree, &part, done, bytes) {
        Ok(calls) => AfterStep {
            did: Did::Chunk(bytes.len() as u32),
            calls,
            stage: Stage::Fill {
                part,
                facts,
                done: done + bytes.len() as u64,
            },
            folder,
        },
        Err(stop) => troubled(stop, Stage::Fill { part, facts, done }, folder),
    }
}

fn fill<T: Tree>(
    alloc: Global,
    tree: &mut T,
    item: &CopyPaths,
    part: Path,
    facts: SourceFacts,
    done: u64,
) -> AfterStep
    requires sound { IsSound (Stage.Fill part facts done) FolderState.Dirty }
    requires unfilled { done < facts.size }
    ensures { MovesOn (λ _. ⊤) (copying item.now (Stage.Fill part facts done) FolderState.Dirty) result
        (T.contents tree.old) (T.contents tree.new)
        (T.fault_count tree.old) (T.fault_count tree.new) }
{
    match write_chunk(alloc, tree, item, &part, facts, done) {
        Ok(count) => AfterStep {
            did: Did::Chunk(count),
            calls: 1,
            stage: Stage::Fill {
                part,
                facts,
                done: done + count as u64,
            },
            folder: FolderState::Dirty,
        },
        Err(stop) => troubled(stop, Stage::Fill { part, facts, done }, FolderState::Dirty),
    }
}

fn finish_part<T: Tree>(
    alloc: Global,
    tree: &mut T,
    item: &CopyPaths,
    part: Path,
    facts: SourceFacts,
    done: u64,
) -> AfterStep
    requires sound { IsSound (Stage.Fill part facts done) FolderState.Dirty }
    requires filled { facts.size ≤ done }
    ensures { MovesOn (λ _. ⊤) (copying item.now (Stage.Fill part facts done) FolderState.Dirty) result
        (T.contents tree.old) (T.contents tree.new)
        (T.fault_count tree.old) (T.fault_count tree.new) }
{
    let Ok(placed) = item.target().copy(alloc) else {
        return troubled(
            stopped_before(out_of_memory(false)),
            Stage::Fill { part, facts, done },
            FolderState::Dirty,
        );
    };
    match place(alloc, tree, &part, facts.mode, item.target()) {
        Ok(calls) => AfterStep {
            did: Did::Placed(placed),
            calls,
            stage: Stage::Decided,
            folder: FolderState::Dirty,
        },
        Err(stop) => troubled(stop, Stage::Fill { part, facts, done }, FolderState::Dirty),
    }
}

fn clean<T: Tree>(
    alloc: Global,
    tree: &mut T,
    item: &CopyPaths,
    part: Path,
    next: Next,
) -> AfterStep
    ensures { MovesOn (λ _. ⊤) (copying item.now (Stage.Clean part next) FolderState.Dirty) result
        (T.contents tree.old) (T.contents tree.new)
        (T.fault_count tree.old) (T.fault_count tree.new) }
{
    match remove_part(alloc, tree, &part) {
        Ok(calls) => AfterStep {
            did: Did::Cleaned(part),
            calls,
            stage: after_clean(next),
            folder: FolderState::Dirty,
        },
        Err(stop) => troubled(stop, Stage::Clean { part, next }, FolderState::Dirty),
    }
}

fn after_clean(next: Next) -> Stage
    ensures { result ≡ stage_after next }
{
    match next {
        Next::Begin => Stage::Begin,
        Next::Decided => Stage::Decided,
    }
}

/// The folder is synced before the end, so that a finished copy is on the disk.
fn conclude<T: Tree>(
    alloc: Global,
    tree: &mut T,
    item: &CopyPaths,
    folder: FolderState,
) -> AfterStep
    ensures { MovesOn (λ _. ⊤) (copying item.now Stage.Decided folder) result (T.contents tree.old)
        (T.contents tree.new)
        (T.fault_count tree.old) (T.fault_count tree.new) }
{
    match folder {
        FolderState::Dirty => sync_names(alloc, tree, item),
        FolderState::Synced => AfterStep {
            did: Did::Ended {
                ending: Ending::Finished,
                part: None,
            },
            calls: 0,
            stage: Stage::Decided,
            folder,
        },
    }
}

fn sync_names<T: Tree>(alloc: Global, tree: &mut T, item: &CopyPaths) -> AfterStep
    ensures { MovesOn (λ _. ⊤) (copying item.now Stage.Decided FolderState.Dirty) result (T.contents tree.old)
        (T.contents tree.new)
        (T.fault_count tree.old) (T.fault_count tree.new) }
{
    match job_reports::sync_names(alloc, tree, item.folder()) {
        Ok(calls) => AfterStep {
            did: Did::Barrier,
            calls,
            stage: Stage::Decided,
            folder: FolderState::Synced,
        },
        Err(stop) => troubled(stop, Stage::Decided, FolderState::Dirty),
    }
}
