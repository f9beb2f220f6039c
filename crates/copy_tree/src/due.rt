//! What the copy of a tree takes up next.
ghost use Rattle.std.specs.Prelude.{◌≡◌, ◌∷◌, drop, IfErr, false};
ghost use Rattle.copy_tree.specs.Standing.{seen_copy, target_name as name_at_target};
ghost use Rattle.copy_tree.specs.Taking.{Dues, IsShort, Joins};

use crate::copy::TreeCopy;
use job_reports::{Cause, Pair, Trouble, out_of_memory, trouble_with_path};
use mc_text::{Name, Path, PathError};
use std::alloc::Global;

/// What is taken up next.
#[derive(Drop)]
pub enum Due {
    /// The end of the folder that is worked.
    End,
    /// The thing that has the next name there.
    Thing(Pair),
}

impl TreeCopy {
    /// What is taken up next, unless it lies too deep, or its path or its target's would be too long.
    pub(crate) fn due(&self, alloc: Global) -> Result<Due, Trouble>
        ensures due { Dues (seen_copy self.now) result }
        ensures apart { IfErr result (λ trouble. trouble.barrier ≡ false) }
    {
        let Some(name) = self.stack.next_name() else {
            return Ok(Due::End);
        };
        match joined(alloc, self.stack.source(), name, self.stack.source()) {
            Ok(source) => self.due_below(alloc, name, source),
            Err(trouble) => Err(trouble),
        }
    }

    /// The thing at this path, unless it lies too deep.
    fn due_below(&self, alloc: Global, name: &Name, source: Path) -> Result<Due, Trouble>
        requires next { self.now.stack.levels.inner.names.names ≡ name.now
            ∷ drop 1 self.now.stack.levels.inner.names.names }
        requires source { source ≡ name.now ∷ self.now.stack.levels.inner.copy.source }
        requires short { IsShort source }
        ensures due { Dues (seen_copy self.now) result }
        ensures apart { IfErr result (λ trouble. trouble.barrier ≡ false) }
    {
        if self.stack.is_deepest() {
            return Err(trouble_with_path(alloc, Cause::TooDeep, &source));
        }
        match joined(alloc, self.stack.target(), self.target_name(name), &source) {
            Ok(target) => Ok(Due::Thing(Pair { source, target })),
            Err(trouble) => Err(trouble),
        }
    }

    /// The name at its target of the thing that has this name.
    fn target_name<'a>(&'a self, name: &'a Name) -> &'a Name
        ensures { result.now ≡ name_at_target (seen_copy self.now) name.now }
    {
        if self.stack.is_outermost() {
            &self.name
        } else {
            name
        }
    }
}

/// The path of a name in a folder. Where it is too long, the trouble names another path.
pub(crate) fn joined(
    alloc: Global,
    folder: &Path,
    name: &Name,
    named: &Path,
) -> Result<Path, Trouble>
    ensures joins { Joins (name.now ∷ folder.now) named.now result }
    ensures apart { IfErr result (λ trouble. trouble.barrier ≡ false) }
{
    match folder.join(alloc, name) {
        Ok(path) => Ok(path),
        Err(PathError::TooLong(_)) => Err(trouble_with_path(alloc, Cause::TooLong, named)),
        Err(_) => Err(out_of_memory(false)),
    }
}
