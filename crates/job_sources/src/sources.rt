//! The sources of a plan, one by one.
ghost use Rattle.std.specs.Prelude.{◌≡◌, ◌∷◌, [], IfOk, map, true};
ghost use Rattle.std.specs.List.{list_all};
ghost use Rattle.job_reports.specs.Jobs.{is_workable};
ghost use Rattle.session_entries.specs.Sources.{are_workable, sources_of};
ghost use Rattle.job_sources.specs.Turning.{move_source, pair_source, path_source};

use crate::later::Later;
use job_reports::{Job, Pair, Pairs};
use mc_text::{NoMemory, Path, Paths};
use std::alloc::Global;

/// The plans of a job's sources, in their order.
pub fn sources_in(alloc: Global, plan: &Job) -> Result<Later, NoMemory>
    requires { are_workable plan.now ≡ true }
    ensures { IfOk result (λ sources. sources ≡ sources_of plan.now) }
{
    match plan {
        Job::Copy(pairs) => of_pairs(alloc, pairs),
        Job::Move(pairs) => of_moves(alloc, pairs),
        Job::Delete(paths) => of_paths(alloc, paths, None),
        Job::MakeFolder(path) => of_one(alloc, Job::MakeFolder(path.copy(alloc)?)),
        Job::MakeLink(path, text) => of_one(
            alloc,
            Job::MakeLink(path.copy(alloc)?, text.copy(alloc)?),
        ),
        Job::SetMode(paths, mode) => of_paths(alloc, paths, Some(*mode)),
        Job::RemoveEmptied(path) => of_one(alloc, Job::RemoveEmptied(path.copy(alloc)?)),
    }
}

/// The sources of a copy.
fn of_pairs(alloc: Global, pairs: &Pairs) -> Result<Later, NoMemory>
    requires { list_all is_workable (map pair_source pairs.now) ≡ true }
    ensures { IfOk result (λ sources. sources ≡ map pair_source pairs.now) }
{
    let mut sources = Later::new(alloc);
    let mut left = pairs.0.as_slice();
    while let Some((pair, before)) = left.split_last() {
        sources.put_first(Job::Copy(of_pair(alloc, pair)?))?;
        left = before;
    }
    Ok(sources)
}

/// The sources of a move.
fn of_moves(alloc: Global, pairs: &Pairs) -> Result<Later, NoMemory>
    requires { list_all is_workable (map move_source pairs.now) ≡ true }
    ensures { IfOk result (λ sources. sources ≡ map move_source pairs.now) }
{
    let mut sources = Later::new(alloc);
    let mut left = pairs.0.as_slice();
    while let Some((pair, before)) = left.split_last() {
        sources.put_first(Job::Move(of_pair(alloc, pair)?))?;
        left = before;
    }
    Ok(sources)
}

/// The sources of a deletion, or of a mode that is set.
fn of_paths(alloc: Global, paths: &Paths, mode: Option<u16>) -> Result<Later, NoMemory>
    requires { list_all is_workable (map (path_source mode) paths.now) ≡ true }
    ensures { IfOk result (λ sources. sources ≡ map (path_source mode) paths.now) }
{
    let mut sources = Later::new(alloc);
    let mut left = paths.as_slice();
    while let Some((path, before)) = left.split_last() {
        sources.put_first(source_of_path(alloc, path, mode)?)?;
        left = before;
    }
    Ok(sources)
}

/// A job of one thing is its only source.
fn of_one(alloc: Global, plan: Job) -> Result<Later, NoMemory>
    requires { is_workable plan ≡ true }
    ensures { IfOk result (λ sources. sources ≡ plan ∷ []) }
{
    let mut sources = Later::new(alloc);
    sources.put_first(plan)?;
    Ok(sources)
}

/// A pair alone.
fn of_pair(alloc: Global, pair: &Pair) -> Result<Pairs, NoMemory>
    ensures { IfOk result (λ alone. alone ≡ pair.now ∷ []) }
{
    let mut pairs = Vec::new(alloc);
    pairs.push(pair.copy(alloc)?)?;
    Ok(Pairs(pairs))
}

fn source_of_path(alloc: Global, path: &Path, mode: Option<u16>) -> Result<Job, NoMemory>
    ensures { IfOk result (λ source. source ≡ path_source mode path.now) }
{
    let mut paths = Paths::new(alloc);
    paths.push(path.copy(alloc)?)?;
    match mode {
        None => Ok(Job::Delete(paths)),
        Some(mode) => Ok(Job::SetMode(paths, mode)),
    }
}
