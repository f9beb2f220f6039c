//! What a walk may end at.
ghost use Rattle.std.specs.Prelude.{◌≡◌, IfErr};
ghost use Rattle.tree_trait.specs.Change.{current};
ghost use Rattle.tree_trait.specs.Answers.{IfKnown, HasCause};
ghost use Rattle.resolving.specs.Errors.{Answers, CarriesCause, count_told};
ghost use Rattle.resolving.specs.Resolution.{end_at, end_by_kind, end_in};

use crate::error::ResolveError;
use crate::looking::refused;
use crate::walking::Wanted;
use mc_text::{Kind, Path};
use std::alloc::Global;
use tree_trait::{ReadTree, TreeError};

/// Looks at what stands at a path at which a walk ends: a folder may, and other things
/// only where any is wanted.
pub fn end_in<T: ReadTree>(
    alloc: Global,
    tree: &mut T,
    wanted: Wanted,
    path: Path,
) -> Result<Path, ResolveError>
    ensures answer { IfKnown (T.contents tree.old) (λ log.
        Answers (end_in (current log) wanted path) result) }
    ensures same { T.contents tree.new ≡ T.contents tree.old }
    ensures cause { HasCause ResolveError.Fault (T.fault_count tree.old) (T.fault_count tree.new) result }
    ensures counts { T.fault_count tree.new ≡ count_told (T.fault_count tree.old) result }
    ensures carried { IfErr result CarriesCause }
{
    match tree.stat(alloc, &path) {
        Err(error) => Err(refused(path, error)),
        Ok(meta) => end_by_kind(wanted, meta.kind, path),
    }
}

/// What comes of a thing of this kind at which a walk ends.
fn end_by_kind(wanted: Wanted, kind: Kind, path: Path) -> Result<Path, ResolveError>
    ensures { result ≡ end_by_kind wanted kind path }
{
    match kind {
        Kind::Folder => Ok(path),
        Kind::File | Kind::Link | Kind::Other => end_on(wanted, path, true),
    }
}

/// What comes of a thing that is no folder: it may end a walk, and nothing lies in it.
pub fn end_on(wanted: Wanted, path: Path, is_last: bool) -> Result<Path, ResolveError>
    ensures { result ≡ end_at wanted is_last path }
{
    match (wanted, is_last) {
        (Wanted::AnyThing, true) => Ok(path),
        (Wanted::AnyThing, false) | (Wanted::FolderAlone, _) => Err(ResolveError::Tree(
            path,
            TreeError::NotFolder,
        )),
    }
}
