//! Where a typed text leads: a folder, or a folder and what stands behind the text's last slash.
ghost use Rattle.std.specs.Prelude.{◌≡◌, IfErr, Ok};
ghost use Rattle.tree_trait.specs.Change.{current};
ghost use Rattle.tree_trait.specs.Answers.{IfKnown};
ghost use Rattle.op_plan.specs.Destinations.{folder_prefix, last_part, folder_there, folder_at};
ghost use Rattle.op_plan.specs.Answering.{Plans, HasPlanCause, IsPlaceError};

use crate::error::PlanError;
use mc_text::Path;
use resolving::{ResolveError, Wanted, resolve};
use std::alloc::Global;
use text_scan::split_at_last_mark;
use tree_trait::ReadTree;

/// What stands before the last slash of a text, the root's slash where nothing else does,
/// and what stands behind it.
pub fn split_last(text: &str) -> (&str, &str)
    ensures front { result.0.now ≡ folder_prefix text.now }
    ensures last { result.1.now ≡ last_part text.now }
{
    match split_at_last_mark(text, '/') {
        None => ("", text),
        Some((front, last)) => {
            if front.is_empty() {
                ("/", last)
            } else {
                (front, last)
            }
        }
    }
}

/// The folder that the whole text leads to, if it leads to one.
pub fn folder_there<T: ReadTree>(
    alloc: Global,
    tree: &mut T,
    from: &Path,
    to: &str,
) -> Result<Option<Path>, PlanError>
    ensures answer { IfKnown (T.contents tree.old) (λ log.
        Plans (Ok (folder_there (current log) from.now to.now)) result) }
    ensures same { T.contents tree.new ≡ T.contents tree.old }
    ensures cause { HasPlanCause (T.fault_count tree.old) (T.fault_count tree.new) result }
{
    match resolve(alloc, tree, Wanted::FolderAlone, from, to) {
        Ok(folder) => Ok(Some(folder)),
        Err(ResolveError::Fault) => Err(PlanError::Target(ResolveError::Fault)),
        Err(ResolveError::Memory) => Err(PlanError::Memory),
        Err(_) => Ok(None),
    }
}

/// The folder of a target.
pub fn folder_at<T: ReadTree>(
    alloc: Global,
    tree: &mut T,
    from: &Path,
    front: &str,
) -> Result<Path, PlanError>
    ensures answer { IfKnown (T.contents tree.old) (λ log.
        Plans (folder_at (current log) from.now front.now) result) }
    ensures same { T.contents tree.new ≡ T.contents tree.old }
    ensures cause { HasPlanCause (T.fault_count tree.old) (T.fault_count tree.new) result }
    ensures only { IfErr result IsPlaceError }
{
    match resolve(alloc, tree, Wanted::FolderAlone, from, front) {
        Ok(folder) => Ok(folder),
        Err(ResolveError::Memory) => Err(PlanError::Memory),
        Err(error) => Err(PlanError::Target(error)),
    }
}
