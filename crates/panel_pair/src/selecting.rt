//! What a job takes from the panels.
ghost use Rattle.std.specs.Prelude.{◌≡◌, ◌≢◌, IfOk, IfErr};
ghost use Rattle.panel_state.specs.Selections.{selection};
ghost use Rattle.panel_pair.specs.Selected.{paths_in, selected_paths, IsTooLong};

use crate::panels::Panels;
use mc_text::{Name, Path, PathError, Paths};
use std::alloc::Global;

impl Panels {
    /// The paths of what a job takes: of the tagged names in the order of their rows, or else of the
    /// current one; none on `..`. It goes over the shown names once.
    pub fn selection(&self, alloc: Global) -> Result<Paths, PathError>
        ensures paths { IfOk result (λ paths. paths ≡ selected_paths self.now.current) }
        ensures too_long { IfErr result
            (λ e. e ≢ PathError.Memory → IsTooLong e self.now.current.folder (selection self.now.current)) }
    {
        let names = self.current.selection(alloc)?;
        paths_in(alloc, self.current.folder(), names.as_slice())
    }
}

/// The paths of names in a folder.
fn paths_in(alloc: Global, folder: &Path, names: &[Name]) -> Result<Paths, PathError>
    ensures paths { IfOk result (λ paths. paths ≡ paths_in folder.now names.now) }
    ensures too_long { IfErr result (λ e. e ≢ PathError.Memory → IsTooLong e folder.now names.now) }
{
    let mut paths = Paths::new(alloc);
    for name in names {
        match folder.join(alloc, name) {
            Ok(path) => paths.push(path)?,
            Err(error) => return Err(error),
        }
    }
    Ok(paths)
}
