//! Paths of which one is the other or lies below it, found by sorting: the number of paths is never squared.
ghost use Rattle.std.specs.Prelude.{◌≡◌, ◌+◌, ◌<◌, ◌∷◌, true, false, None, IfOk};
ghost use Rattle.std.specs.Prelude.{IfSome, map, option_map, take, length};
ghost use Rattle.std.specs.List.{position};
ghost use Rattle.std.specs.Cmp.Lexicographic.{slice_cmp};
ghost use Rattle.std.specs.List.Sorted.{IsPermutation, IsSorted};
ghost use Rattle.tree_trait.specs.Answers.{name_cmp};
ghost use Rattle.op_plan.specs.Meeting.{meet, has_two};
ghost use Rattle.mc_text.specs.Names.{name_fault};
ghost use Rattle.mc_text.specs.Routes.{last_of};
ghost use Rattle.std.specs.Bool.{OnTrue};
ghost use Rattle.op_plan.specs.Sorting.{comes_apart, route_cmp, neighbours_meet, IsFirstMeeting};

use crate::digest::folder_of_all;
use mc_text::{Name, NoMemory, Path};
use std::alloc::Global;
use std::cmp::Ordering;

/// Whether one path is the other, or that of a folder above what stands there.
pub fn meet(mine: &Path, theirs: &Path) -> bool
    ensures { result ≡ meet mine.now theirs.now }
{
    mine.is_prefix_of(theirs) || theirs.is_prefix_of(mine)
}

/// The shortest front of the paths in which two meet: the first that its last one meets, and that last one,
/// by their positions. The time grows as the number of paths times the square of its logarithm.
pub fn first_meeting(alloc: Global, paths: &[Path]) -> Result<Option<(usize, usize)>, NoMemory>
    ensures { IfOk result (λ found. IsFirstMeeting paths.now found) }
{
    if !any_meet(alloc, paths)? {
        return Ok(None);
    }
    let last = last_of_front(alloc, paths)?;
    match first_met(&paths[..last], &paths[last]) {
        Some(first) => Ok(Some((first, last))),
        None => unreachable!(),
    }
}

/// Whether two of the paths meet. Where each comes before the next one, as in a listing,
/// they need not be sorted.
fn any_meet(alloc: Global, paths: &[Path]) -> Result<bool, NoMemory>
    ensures { IfOk result (λ found. found ≡ has_two meet paths.now) }
{
    if rise_apart(paths) {
        return Ok(false);
    }
    scattered_meet(alloc, paths)
}

/// Whether each path comes before the next one in the paths' order, and doesn't hold it.
fn rise_apart(paths: &[Path]) -> bool
    ensures { OnTrue result (has_two meet paths.now ≡ false) }
{
    for i in 1..paths.len() {
        if !comes_apart(&paths[i - 1], &paths[i]) {
            return false;
        }
    }
    true
}

/// Whether a path comes before another in the paths' order, and doesn't hold it.
fn comes_apart(path: &Path, next: &Path) -> bool
    ensures { result ≡ comes_apart path.now next.now }
{
    order(path, next) == Ordering::Less && !path.is_prefix_of(next)
}

/// Whether two of the paths meet. None do that lie side by side in one folder. Else they are sorted:
/// two neighbours meet then.
fn scattered_meet(alloc: Global, paths: &[Path]) -> Result<bool, NoMemory>
    ensures { IfOk result (λ found. found ≡ has_two meet paths.now) }
{
    match folder_of_all(alloc, paths)? {
        Some(_) => Ok(false),
        None => sorted_meet(alloc, paths),
    }
}

/// Whether two of the paths meet, found by sorting them.
fn sorted_meet(alloc: Global, paths: &[Path]) -> Result<bool, NoMemory>
    ensures { IfOk result (λ found. found ≡ has_two meet paths.now) }
{
    let sorted = sorted(alloc, paths)?;
    Ok(neighbours_meet(sorted.as_slice()))
}

/// The last name of a path, if it lies directly in the folder.
pub fn child_name<'a>(folder: &Path, path: &'a Path) -> Option<&'a str>
    ensures joined { IfSome result (λ name. path.now ≡ name.now ∷ folder.now) }
    ensures sound { IfSome result (λ name. name_fault name.now ≡ None) }
{
    if path.names().len() == folder.names().len() + 1 && folder.is_prefix_of(path) {
        last_text(path)
    } else {
        None
    }
}

/// The last name of a path.
fn last_text(path: &Path) -> Option<&str>
    ensures last { option_map (λ name. name.now) result ≡ last_of path.now }
    ensures sound { IfSome result (λ name. name_fault name.now ≡ None) }
{
    match last_name(path) {
        Some(name) => Some(name.text()),
        None => None,
    }
}

/// The last name of a path. The root has none.
pub fn last_name(path: &Path) -> Option<&Name>
    ensures { option_map (λ name. name.now) result ≡ last_of path.now }
{
    path.names().last()
}

/// The paths in their order by names.
fn sorted<'a>(alloc: Global, paths: &'a [Path]) -> Result<Vec<&'a Path>, NoMemory>
    ensures permutation { IfOk result (λ sorted.
        IsPermutation paths.now (map (λ path. path.now) sorted.items)) }
    ensures sorted { IfOk result (λ sorted. IsSorted route_cmp (map (λ path. path.now) sorted.items)) }
{
    let mut sorted = Vec::with_capacity(alloc, paths.len())?;
    for path in paths {
        sorted.push(path)?;
    }
    sorted.sort_unstable_by(|mine, theirs| order(mine, theirs));
    Ok(sorted)
}

/// How two paths stand in the order of their names, from the root on. A path comes directly
/// before all that lies below it.
fn order(mine: &Path, theirs: &Path) -> Ordering
    ensures { result ≡ route_cmp mine.now theirs.now }
{
    names_order(mine.names(), theirs.names())
}

/// How two lists of names stand in the order of their first names, then of their second ones, and so on.
fn names_order(mine: &[Name], theirs: &[Name]) -> Ordering
    ensures { result ≡ slice_cmp name_cmp mine.now theirs.now }
{
    let Some((name, below)) = mine.split_first() else {
        return if theirs.is_empty() {
            Ordering::Equal
        } else {
            Ordering::Less
        };
    };
    let Some((other, others)) = theirs.split_first() else {
        return Ordering::Greater;
    };
    match name.order(other) {
        Ordering::Equal => names_order(below, others),
        Ordering::Less => Ordering::Less,
        Ordering::Greater => Ordering::Greater,
    }
}

/// Whether a path begins with the one before it.
fn neighbours_meet(sorted: &[&Path]) -> bool
    ensures { result ≡ neighbours_meet (map (λ path. path.now) sorted.now) }
{
    for i in 1..sorted.len() {
        if sorted[i - 1].is_prefix_of(sorted[i]) {
            return true;
        }
    }
    false
}

/// The position of the last path of the shortest front in which two meet.
fn last_of_front(alloc: Global, paths: &[Path]) -> Result<usize, NoMemory>
    requires { has_two meet paths.now ≡ true }
    ensures within { IfOk result (λ last. last < length paths.now) }
    ensures before { IfOk result (λ last. has_two meet (take last paths.now) ≡ false) }
    ensures meets { IfOk result (λ last. has_two meet (take (last + 1) paths.now) ≡ true) }
{
    let mut apart = 0;
    let mut meeting = paths.len();
    while apart + 1 < meeting {
        let middle = apart + (meeting - apart) / 2;
        if any_meet(alloc, &paths[..middle])? {
            meeting = middle;
        } else {
            apart = middle;
        }
    }
    Ok(apart)
}

/// The first of the paths that meets this one.
fn first_met(paths: &[Path], path: &Path) -> Option<usize>
    ensures { result ≡ position (λ other. meet other path.now) paths.now }
{
    paths.iter().position(|other| meet(other, path))
}
