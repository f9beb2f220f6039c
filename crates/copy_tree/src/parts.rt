//! Which paths a part may take.
ghost use Rattle.std.specs.Prelude.{◌≡◌, ◌&&◌, ◌∷◌, [], drop, not, IfNone, IfSome};
ghost use Rattle.copy_file.specs.Copying.{part_at};
ghost use Rattle.copy_folders.specs.Levels.{coming};
ghost use Rattle.copy_tree.specs.Parts.{IsShortPart, is_named_in};
ghost use Rattle.copy_tree.specs.Taking.{IsShort};

use copy_file::FileCopy;
use copy_folders::Stack;
use job_reports::PartTest;
use mc_text::{Name, Path};

/// The paths that a part may take in the folder that is worked: those that the given test allows, and whose
/// name no thing has that is yet to be met there. What is copied has the name `top` at its target.
#[derive(Drop)]
pub(crate) struct PartPlaces<'a, P> {
    pub(crate) given: &'a P,
    pub(crate) top: &'a Name,
    pub(crate) stack: &'a Stack,
}

impl<'a, P: PartTest> PartTest for PartPlaces<'a, P> {
    ghost use Rattle.std.specs.Prelude.{◌&&◌, not};
    ghost use Rattle.copy_folders.specs.Levels.{coming};
    ghost use Rattle.copy_tree.specs.Parts.{is_named_in};

    ghost is_free = { λ places path. P.is_free places.given.now path
        && not (is_named_in
        (coming places.top.now places.stack.now.levels.inner.names places.stack.now.levels.around) path) };

    fn free(&self, path: &Path) -> bool {
        self.given.free(path) && !is_coming(self.stack, self.top, path)
    }
}

/// Whether a thing that is yet to be met has the name of this path.
fn is_coming(stack: &Stack, top: &Name, path: &Path) -> bool
    ensures { result ≡ is_named_in
        (coming top.now stack.now.levels.inner.names stack.now.levels.around) path.now }
{
    match last_name(path) {
        Some(name) => stack.is_coming(top, name),
        None => false,
    }
}

/// The last name of a path.
fn last_name(path: &Path) -> Option<&Name>
    ensures some { IfSome result (λ name. path.now ≡ name.now ∷ drop 1 path.now) }
    ensures none { IfNone result (path.now ≡ []) }
{
    path.names().last()
}

/// The part that stands can be told, as each path.
pub(crate) fn see_part(copy: &FileCopy)
    ensures { IsShortPart (part_at copy.now.stage) }
{
    if let Some(part) = copy.part() {
        see_path(part);
    }
}

/// A path can be told.
pub(crate) fn see_path(path: &Path)
    ensures { IsShort path.now }
{
    let _names = path.names();
}
