//! The path of a part: beside the target, with the first name that is free.
ghost use Rattle.std.specs.Prelude.{◌≡◌, ◌||◌, not, true, IfOk, MatchResult};
ghost use Rattle.mc_text.specs.Routes.{same_path};
ghost use Rattle.tree_trait.specs.Change.{current};
ghost use Rattle.tree_trait.specs.Answers.{IfKnown};
ghost use Rattle.job_reports.specs.Reading.{Peeks};
ghost use Rattle.job_reports.specs.Stops.{IsTroubleWithPath};
ghost use Rattle.copy_file.specs.PartNames.{IsChosen, IsPathOf, IsShort, IsTaken, IsTakenPath};
ghost use Rattle.copy_file.specs.PartNames.{NameStops, PathStops, TryStops, part_name as name_of};

use crate::item::CopyPaths;
use job_reports::{Cause, PartTest, Trouble, missing_or_trouble, out_of_memory, trouble_with_path};
use mc_text::{Name, NoMemory, Path, PathError};
use std::alloc::Global;
use tree_trait::Tree;

/// So many names of a part are tried.
const PART_NAMES: u32 = 1000;

/// The path of the part. `TooLong` where the first name that is free gives a path that is too long.
pub fn choose_part<T: Tree, P: PartTest>(
    alloc: Global,
    tree: &mut T,
    parts: &P,
    item: &CopyPaths,
) -> Result<Path, Trouble>
    ensures known { IfKnown (T.contents tree.old) (λ log. MatchResult result
        (IsChosen (current log) (λ path. P.is_free parts.now path ≡ true) item.now)
        (λ trouble. NameStops (current log) (λ path. P.is_free parts.now path ≡ true) item.now trouble.cause
        trouble.path)) }
    ensures peeks { Peeks result (T.contents tree.old) (T.contents tree.new)
        (T.fault_count tree.old) (T.fault_count tree.new) }
{
    for k in 0..PART_NAMES {
        match try_name(alloc, tree, parts, item, k) {
            Ok(Some(path)) => return Ok(path),
            Ok(None) => {}
            Err(trouble) => return Err(trouble),
        }
    }
    Err(trouble_with_path(alloc, Cause::PartTaken, item.target()))
}

/// The path with this number, if it is free.
fn try_name<T: Tree, P: PartTest>(
    alloc: Global,
    tree: &mut T,
    parts: &P,
    item: &CopyPaths,
    k: u32,
) -> Result<Option<Path>, Trouble>
    ensures known { IfKnown (T.contents tree.old) (λ log. MatchResult result
        (IsTaken (current log) (λ path. P.is_free parts.now path ≡ true) item.now k)
        (λ trouble. TryStops (current log) (λ path. P.is_free parts.now path ≡ true) item.now k trouble.cause
        trouble.path)) }
    ensures peeks { Peeks result (T.contents tree.old) (T.contents tree.new)
        (T.fault_count tree.old) (T.fault_count tree.new) }
{
    match part_path(alloc, item, k) {
        Ok(Some(path)) => try_path(alloc, tree, parts, item, path),
        Ok(None) => Err(too_long(alloc, item)),
        Err(NoMemory) => Err(out_of_memory(false)),
    }
}

/// The trouble of a path that is too long. The paths of the copy itself are none of that kind.
fn too_long(alloc: Global, item: &CopyPaths) -> Trouble
    ensures named { IsTroubleWithPath Cause.TooLong item.now.source result }
    ensures source { IsShort item.now.source }
    ensures target { IsShort item.now.target }
{
    let _source = item.source().names();
    let _target = item.target().names();
    trouble_with_path(alloc, Cause::TooLong, item.source())
}

/// This path, if it is free.
fn try_path<T: Tree, P: PartTest>(
    alloc: Global,
    tree: &mut T,
    parts: &P,
    item: &CopyPaths,
    path: Path,
) -> Result<Option<Path>, Trouble>
    requires { IsShort path }
    ensures known { IfKnown (T.contents tree.old) (λ log. MatchResult result
        (IsTakenPath (current log) (λ path. P.is_free parts.now path ≡ true) item.now path)
        (λ trouble. PathStops (current log) path trouble.cause trouble.path)) }
    ensures peeks { Peeks result (T.contents tree.old) (T.contents tree.new)
        (T.fault_count tree.old) (T.fault_count tree.new) }
{
    if is_barred(parts, item, &path) {
        return Ok(None);
    }
    match tree.stat(alloc, &path) {
        Ok(_) => Ok(None),
        Err(error) => match missing_or_trouble(alloc, error, &path) {
            Ok(()) => Ok(Some(path)),
            Err(trouble) => Err(trouble),
        },
    }
}

/// Whether a part may not come to this path, whatever stands there.
fn is_barred<P: PartTest>(parts: &P, item: &CopyPaths, path: &Path) -> bool
    ensures { result ≡ (same_path path.now item.now.target || same_path path.now item.now.source
        || not (P.is_free parts.now path.now)) }
{
    path.same(item.target()) || path.same(item.source()) || !parts.free(path)
}

/// The path of the part with this number, or none where it would be too long.
fn part_path(alloc: Global, item: &CopyPaths, k: u32) -> Result<Option<Path>, NoMemory>
    ensures { IfOk result (IsPathOf item.now k) }
{
    let name = part_name(alloc, item.job(), k)?;
    match item.folder().join(alloc, &name) {
        Ok(path) => Ok(Some(path)),
        Err(PathError::TooLong(_)) => Ok(None),
        Err(_) => Err(NoMemory),
    }
}

/// The name of a job's part with this number.
fn part_name(alloc: Global, job: u32, k: u32) -> Result<Name, NoMemory>
    ensures { IfOk result (λ name. name ≡ name_of job k) }
{
    let text = format!(in alloc; ".mc.{job}.{k}.part")?;
    match Name::new(alloc, text.as_str()) {
        Ok(name) => Ok(name),
        Err(_) => Err(NoMemory),
    }
}
