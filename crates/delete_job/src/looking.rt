//! What stands at a path: a folder with its names, or a thing that is none.
ghost use Rattle.std.specs.Prelude.{◌≡◌, ◌≢◌, true, IfOk, MatchResult};
ghost use Rattle.tree_trait.specs.Calls.{ListFolder, Stat};
ghost use Rattle.tree_trait.specs.Change.{current, found_node};
ghost use Rattle.tree_trait.specs.FileSystem.{node};
ghost use Rattle.tree_trait.specs.Refusals.{folder_kind, is_folder, refusal_of};
ghost use Rattle.tree_trait.specs.Answers.{IfKnown, IsAscending, IsListing};
ghost use Rattle.job_reports.specs.Reading.{Peeks};
ghost use Rattle.delete_job.specs.Descending.{CallStops, IsFound, StandsSo};

use job_reports::{Cause, Trouble, reading_trouble, trouble_with_path};
use mc_text::{Kind, Path};
use std::alloc::Global;
use tree_trait::{Children, Tree};

/// What stands somewhere.
#[derive(Debug, Drop)]
pub enum Found {
    /// A folder, all names of which can be shown.
    Folder(Children),
    /// A thing that is no folder.
    Thing,
}

/// Looks at what stands at a path, and lists it if it is a folder.
pub(crate) fn what_stands<T: Tree>(
    alloc: Global,
    tree: &mut T,
    path: &Path,
) -> Result<Found, Trouble>
    ensures known { StandsSo (T.contents tree.old) path.now result }
    ensures peeks { Peeks result (T.contents tree.old) (T.contents tree.new) (T.fault_count tree.old)
        (T.fault_count tree.new) }
{
    match is_folder_at(alloc, tree, path) {
        Ok(true) => names_in(alloc, tree, path),
        Ok(false) => Ok(Found::Thing),
        Err(trouble) => Err(trouble),
    }
}

/// Whether what stands at a path is a folder.
fn is_folder_at<T: Tree>(alloc: Global, tree: &mut T, path: &Path) -> Result<bool, Trouble>
    ensures known { IfKnown (T.contents tree.old) (λ log. MatchResult result
        (λ answer. is_folder (node (current log) (found_node (current log) path.now)) ≡ answer)
        (λ trouble. CallStops (current log) (Stat path.now) path.now trouble.cause trouble.path)) }
    ensures peeks { Peeks result (T.contents tree.old) (T.contents tree.new) (T.fault_count tree.old)
        (T.fault_count tree.new) }
{
    match tree.stat(alloc, path) {
        Ok(meta) => Ok(is_kind_of_folder(meta.kind)),
        Err(error) => Err(reading_trouble(alloc, error, path)),
    }
}

fn is_kind_of_folder(kind: Kind) -> bool
    ensures { result ≡ folder_kind kind }
{
    match kind {
        Kind::Folder => true,
        Kind::File | Kind::Link | Kind::Other => false,
    }
}

/// The names in a folder, all of which can be shown.
fn names_in<T: Tree>(alloc: Global, tree: &mut T, path: &Path) -> Result<Found, Trouble>
    requires folder { IfKnown (T.contents tree.old) (λ log.
        is_folder (node (current log) (found_node (current log) path.now)) ≡ true) }
    ensures known { StandsSo (T.contents tree.old) path.now result }
    ensures peeks { Peeks result (T.contents tree.old) (T.contents tree.new) (T.fault_count tree.old)
        (T.fault_count tree.new) }
{
    match listing(alloc, tree, path) {
        Ok(children) => shown(alloc, path, children),
        Err(trouble) => Err(trouble),
    }
}

fn listing<T: Tree>(alloc: Global, tree: &mut T, path: &Path) -> Result<Children, Trouble>
    ensures known { IfKnown (T.contents tree.old) (λ log. MatchResult result
        (λ children. (refusal_of (current log) (ListFolder path.now) ≡ None)
        × IsListing (current log) (found_node (current log) path.now) children)
        (λ trouble. CallStops (current log) (ListFolder path.now) path.now trouble.cause trouble.path)) }
    ensures in_order { IfOk result (λ children. IsAscending children.names) }
    ensures peeks { Peeks result (T.contents tree.old) (T.contents tree.new) (T.fault_count tree.old)
        (T.fault_count tree.new) }
{
    match tree.list(alloc, path) {
        Ok(children) => Ok(children),
        Err(error) => Err(reading_trouble(alloc, error, path)),
    }
}

/// A listing, unless it has names that can't be shown.
fn shown(alloc: Global, path: &Path, children: Children) -> Result<Found, Trouble>
    ensures { IsFound path.now children result }
{
    if children.unnamed != 0 {
        return Err(trouble_with_path(alloc, Cause::Unnamed(children.unnamed), path));
    }
    Ok(Found::Folder(children))
}
