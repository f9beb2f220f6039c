//! One step of a walk: a component is looked at in the folder that was reached.
ghost use Rattle.std.specs.Prelude.{◌≡◌, ◌≢◌, ◌∷◌, None, Some, Ok, IfOk, IfErr};
ghost use Rattle.mc_text.specs.declared.kind.Kind.TheVariants.{Link};
ghost use Rattle.tree_trait.specs.Calls.{Stat};
ghost use Rattle.tree_trait.specs.Refusals.{holder, refusal_of};
ghost use Rattle.tree_trait.specs.FileSystem.{node};
ghost use Rattle.tree_trait.specs.Change.{current, found_node};
ghost use Rattle.tree_trait.specs.Answers.{IfKnown, HasCause};
ghost use Rattle.resolving.specs.Errors.{Answers, CarriesCause, count_told, refused_by};
ghost use Rattle.resolving.specs.Resolution.{entry_fault, look_at, step_from, IsShort};

use crate::error::ResolveError;
use mc_text::{Kind, Name, NameError, NoMemory, Path, PathError, Text};
use std::alloc::Global;
use tree_trait::{ReadTree, TreeError};

/// What a component leads to.
#[derive(Debug, Drop)]
pub enum Step {
    /// The folder at this path, which was looked at.
    Into(Path),
    /// The folder above, which wasn't looked at.
    Up(Path),
    /// What stands at this path and is neither a folder nor a link.
    Onto(Path),
    /// A link with this text.
    Across(Text),
}

/// Goes from a folder to what a component names.
pub fn step_to<T: ReadTree>(
    alloc: Global,
    tree: &mut T,
    folder: &Path,
    component: &str,
) -> Result<Step, ResolveError>
    ensures answer { IfKnown (T.contents tree.old) (λ log.
        Answers (step_from (current log) folder.now component.now) result) }
    ensures same { T.contents tree.new ≡ T.contents tree.old }
    ensures cause { HasCause ResolveError.Fault (T.fault_count tree.old) (T.fault_count tree.new) result }
    ensures counts { T.fault_count tree.new ≡ count_told (T.fault_count tree.old) result }
    ensures carried { IfErr result CarriesCause }
    ensures short { IfOk result IsShort }
{
    if component == ".." {
        return Ok(Step::Up(above(alloc, folder)?));
    }
    let path = entry(alloc, folder, component)?;
    look(alloc, tree, path)
}

/// The folder above; the root is its own.
fn above(alloc: Global, folder: &Path) -> Result<Path, NoMemory>
    ensures { IfOk result (λ path. path ≡ holder folder.now) }
{
    match folder.parent(alloc)? {
        Some(path) => Ok(path),
        None => Ok(Path::root(alloc)),
    }
}

/// The path of a folder's entry.
fn entry(alloc: Global, folder: &Path, component: &str) -> Result<Path, ResolveError>
    ensures path { IfOk result (λ path. path ≡ component.now ∷ folder.now) }
    ensures sound { IfOk result (λ _. entry_fault folder.now component.now ≡ None) }
    ensures refused { IfErr result (λ e.
        e ≢ ResolveError.Memory → entry_fault folder.now component.now ≡ Some e) }
    ensures no_fault { IfErr result (λ e. e ≢ ResolveError.Fault) }
    ensures carried { IfErr result CarriesCause }
{
    let name = match Name::new(alloc, component) {
        Ok(name) => name,
        Err(NameError::Memory) => return Err(ResolveError::Memory),
        Err(_) => return Err(ResolveError::BadName),
    };
    match folder.join(alloc, &name) {
        Ok(path) => Ok(path),
        Err(PathError::Memory) => Err(ResolveError::Memory),
        Err(_) => Err(ResolveError::TooLong),
    }
}

/// Looks at what stands at a path.
fn look<T: ReadTree>(alloc: Global, tree: &mut T, path: Path) -> Result<Step, ResolveError>
    ensures answer { IfKnown (T.contents tree.old) (λ log. Answers (look_at (current log) path) result) }
    ensures same { T.contents tree.new ≡ T.contents tree.old }
    ensures cause { HasCause ResolveError.Fault (T.fault_count tree.old) (T.fault_count tree.new) result }
    ensures counts { T.fault_count tree.new ≡ count_told (T.fault_count tree.old) result }
    ensures carried { IfErr result CarriesCause }
    ensures short { IfOk result IsShort }
{
    match tree.stat(alloc, &path) {
        Err(error) => Err(refused(path, error)),
        Ok(meta) => match meta.kind {
            Kind::Folder => Ok(Step::Into(path)),
            Kind::Link => read_text(alloc, tree, path),
            Kind::File | Kind::Other => Ok(Step::Onto(path)),
        },
    }
}

/// Reads the text of a link that stands at a path.
fn read_text<T: ReadTree>(alloc: Global, tree: &mut T, path: Path) -> Result<Step, ResolveError>
    ensures answer { IfKnown (T.contents tree.old) (λ log.
        refusal_of (current log) (Stat path) ≡ None
        → (node (current log) (found_node (current log) path)).kind ≡ Link
        → Answers (look_at (current log) path) result) }
    ensures same { T.contents tree.new ≡ T.contents tree.old }
    ensures cause { HasCause ResolveError.Fault (T.fault_count tree.old) (T.fault_count tree.new) result }
    ensures counts { T.fault_count tree.new ≡ count_told (T.fault_count tree.old) result }
    ensures carried { IfErr result CarriesCause }
    ensures short { IfOk result IsShort }
{
    match tree.read_link(alloc, &path) {
        Err(error) => Err(refused(path, error)),
        Ok(text) => Ok(Step::Across(text)),
    }
}

/// The error for a call that the tree refused at a path.
pub fn refused(path: Path, error: TreeError) -> ResolveError
    ensures { result ≡ refused_by path error }
{
    match error {
        TreeError::Fault => ResolveError::Fault,
        TreeError::Memory => ResolveError::Memory,
        error => ResolveError::Tree(path, error),
    }
}
