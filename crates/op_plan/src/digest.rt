//! Names told apart by numbers that are made of their bytes: where no two of these are one, no two names are.
ghost use Rattle.std.specs.Prelude.{◌≡◌, ◌==◌, false, IfOk, IfSome};
ghost use Rattle.std.specs.Bool.{OnTrue};
ghost use Rattle.std.specs.Str.{bytes_eq};
ghost use Rattle.op_plan.specs.Meeting.{has_two};
ghost use Rattle.op_plan.specs.Sorting.{has_neighbours};
ghost use Rattle.op_plan.specs.Digests.{digest, LieApart};

use crate::meeting::child_name;
use mc_text::{Name, NoMemory, Path};
use std::alloc::Global;
use std::hash::{FoldHasher, Hasher};

/// The folder in which all the paths lie, each under a name of its own, where the names' numbers tell that.
pub fn folder_of_all(alloc: Global, paths: &[Path]) -> Result<Option<Path>, NoMemory>
    ensures { IfOk result (λ found. IfSome found (λ folder. LieApart folder paths.now)) }
{
    let Some(first) = paths.first() else {
        return Ok(None);
    };
    let Some(folder) = first.parent(alloc)? else {
        return Ok(None);
    };
    if lie_apart(alloc, &folder, paths)? {
        Ok(Some(folder))
    } else {
        Ok(None)
    }
}

/// Whether the paths lie in the folder, each under a name of its own. It may be denied
/// where two numbers are one.
fn lie_apart(alloc: Global, folder: &Path, paths: &[Path]) -> Result<bool, NoMemory>
    ensures { IfOk result (λ apart. OnTrue apart (LieApart folder.now paths.now)) }
{
    let mut digests = Vec::with_capacity(alloc, paths.len())?;
    for path in paths {
        match child_name(folder, path) {
            Some(name) => digests.push(digest(name))?,
            None => return Ok(false),
        }
    }
    Ok(!any_twice(digests))
}

/// Whether no two of the names are one. It may be denied where two numbers are one.
pub fn are_told_apart(alloc: Global, names: &[Name]) -> Result<bool, NoMemory>
    ensures { IfOk result (λ apart. OnTrue apart (has_two bytes_eq names.now ≡ false)) }
{
    let mut digests = Vec::with_capacity(alloc, names.len())?;
    for name in names {
        digests.push(digest(name.text()))?;
    }
    Ok(!any_twice(digests))
}

/// The number of a text.
fn digest(text: &str) -> u64
    ensures { result ≡ digest text.now }
{
    let mut hasher = FoldHasher::default();
    hasher.write(text.as_bytes());
    hasher.finish()
}

/// Whether two of the numbers are one. Once they are sorted, two neighbours are then.
fn any_twice(numbers: Vec<u64>) -> bool
    ensures { result ≡ has_two (λ a b. a == b) numbers.items }
{
    let mut sorted = numbers;
    sorted.sort_unstable();
    neighbours_same(sorted.as_slice())
}

/// Whether a number is the one before it.
fn neighbours_same(sorted: &[u64]) -> bool
    ensures { result ≡ has_neighbours (λ a b. a == b) sorted.now }
{
    for i in 1..sorted.len() {
        if sorted[i - 1] == sorted[i] {
            return true;
        }
    }
    false
}
