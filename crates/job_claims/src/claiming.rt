//! What a job claims of the tree, and which claims clash.
ghost use Rattle.std.specs.Prelude.{◌≡◌, ◌<◌, [], ◌∷◌, length, is_some, IfOk, IfSome};
ghost use Rattle.std.specs.List.{list_any, position};
ghost use Rattle.job_claims.specs.Claiming.{claims, clash, clashes, first_clash, of_pairs, all_written};

use crate::claim::{Claim, Claims};
use job_reports::Pair;
use mc_text::{NoMemory, Path};
use op_plan::Job;
use std::alloc::Global;

/// What a job claims: a copy reads its sources; all else is written.
pub fn claims(alloc: Global, job: &Job) -> Result<Claims, NoMemory>
    ensures { IfOk result (λ claimed. claimed ≡ claims job.now) }
{
    match job {
        Job::Copy(pairs) => of_pairs(alloc, false, pairs.as_slice()),
        Job::Move(pairs) => of_pairs(alloc, true, pairs.as_slice()),
        Job::Delete(paths) => all_written(alloc, paths.as_slice()),
        Job::MakeFolder(path) => one_written(alloc, path),
        Job::SetMode(paths, _) => all_written(alloc, paths.as_slice()),
        Job::MakeLink(path, _) => one_written(alloc, path),
        Job::Save(path, _) => one_written(alloc, path),
    }
}

/// The claims of pairs: the source of each, which is written where it is moved, and its target.
fn of_pairs(alloc: Global, moves: bool, pairs: &[Pair]) -> Result<Claims, NoMemory>
    ensures { IfOk result (λ claimed. claimed ≡ of_pairs moves pairs.now) }
{
    let mut claimed = Vec::new(alloc);
    for pair in pairs {
        claimed.push(Claim {
            path: pair.source.copy(alloc)?,
            writes: moves,
        })?;
        claimed.push(Claim {
            path: pair.target.copy(alloc)?,
            writes: true,
        })?;
    }
    Ok(Claims(claimed))
}

/// A claim for writing of each path.
fn all_written(alloc: Global, paths: &[Path]) -> Result<Claims, NoMemory>
    ensures { IfOk result (λ claimed. claimed ≡ all_written paths.now) }
{
    let mut claimed = Vec::new(alloc);
    for path in paths {
        claimed.push(Claim {
            path: path.copy(alloc)?,
            writes: true,
        })?;
    }
    Ok(Claims(claimed))
}

/// A claim for writing of one path.
fn one_written(alloc: Global, path: &Path) -> Result<Claims, NoMemory>
    ensures { IfOk result (λ claimed. claimed ≡ all_written (path.now ∷ [])) }
{
    let mut claimed = Vec::new(alloc);
    claimed.push(Claim {
        path: path.copy(alloc)?,
        writes: true,
    })?;
    Ok(Claims(claimed))
}

/// The first pair of positions at which two claims clash: the first of mine that clashes with
/// any of theirs, and the first of those. It takes no memory, and a time that grows as the
/// product of their numbers.
pub fn clash(mine: &Claims, theirs: &Claims) -> Option<(usize, usize)>
    ensures first { result ≡ first_clash mine.now theirs.now }
    ensures found { is_some result ≡ clashes mine.now theirs.now }
{
    first_pair(mine.as_slice(), theirs.as_slice())
}

/// The first pair of positions at which two claims clash.
fn first_pair(mine: &[Claim], theirs: &[Claim]) -> Option<(usize, usize)>
    ensures { result ≡ first_clash mine.now theirs.now }
{
    let Some(i) = first_clashing(mine, theirs) else {
        return None;
    };
    let Some(j) = first_against(&mine[i], theirs) else {
        return None;
    };
    Some((i, j))
}

/// The first of my claims that clashes with one of theirs.
fn first_clashing(mine: &[Claim], theirs: &[Claim]) -> Option<usize>
    ensures first { result ≡ position (λ claim. list_any (clash claim) theirs.now) mine.now }
    ensures within { IfSome result (λ i. i < length mine.now) }
{
    mine.iter()
        .position(|claim| clashes_with_any(claim, theirs))
}

/// Whether the claim clashes with one of theirs.
fn clashes_with_any(claim: &Claim, theirs: &[Claim]) -> bool
    ensures { result ≡ list_any (clash claim.now) theirs.now }
{
    theirs.iter().any(|other| claim.clashes_with(other))
}

/// The first of the claims with which this one clashes.
fn first_against(claim: &Claim, theirs: &[Claim]) -> Option<usize>
    ensures { result ≡ position (clash claim.now) theirs.now }
{
    theirs.iter().position(|other| claim.clashes_with(other))
}
