//! Whether a program stands where a condition asks for it.
ghost use Rattle.std.specs.Prelude.{◌≡◌, ◌⊎◌, IfOk, IfErr};
ghost use Rattle.mc_text.specs.Routes.{begins_with_slash};
ghost use Rattle.tree_trait.specs.Change.{current};
ghost use Rattle.tree_trait.specs.Answers.{IfKnown, HasCause};
ghost use Rattle.user_menu.specs.Facts.{is_program, route_asked, entry_route, absolute_route};

use crate::types::is_runnable;
use mc_text::{Name, NameError, NoMemory, Path, PathError};
use std::alloc::Global;
use tree_trait::{ReadTree, TreeError};

/// Whether an argument, a name in this folder or an absolute path, leads to a file that somebody may
/// run. Links aren't followed.
pub fn is_program<T: ReadTree>(
    alloc: Global,
    tree: &mut T,
    folder: &Path,
    argument: &str,
) -> Result<bool, TreeError>
    ensures answer { IfKnown (T.contents tree.old) (λ log.
        IfOk result (λ is. is ≡ is_program (current log) folder.now argument.now)) }
    ensures same { T.contents tree.new ≡ T.contents tree.old }
    ensures cause { HasCause TreeError.Fault (T.fault_count tree.old) (T.fault_count tree.new) result }
    ensures refused { IfErr result (λ e. (e ≡ TreeError.Memory) ⊎ (e ≡ TreeError.Fault)) }
{
    let path = match route_asked(alloc, folder, argument) {
        Ok(Some(path)) => path,
        Ok(None) => return Ok(false),
        Err(NoMemory) => return Err(TreeError::Memory),
    };
    match tree.stat(alloc, &path) {
        Ok(meta) => Ok(is_runnable(meta.kind, meta.mode)),
        Err(TreeError::Fault) => Err(TreeError::Fault),
        Err(TreeError::Memory) => Err(TreeError::Memory),
        Err(_) => Ok(false),
    }
}

/// The path that an argument asks for, if it may be one.
fn route_asked(alloc: Global, folder: &Path, argument: &str) -> Result<Option<Path>, NoMemory>
    ensures { IfOk result (λ path. path ≡ route_asked folder.now argument.now) }
{
    if begins_with_slash(argument) {
        return absolute_route(alloc, argument);
    }
    entry_route(alloc, folder, argument)
}

fn begins_with_slash(argument: &str) -> bool
    ensures { result ≡ begins_with_slash argument.now }
{
    match argument.as_bytes() {
        [] => false,
        [byte, ..] => *byte == b'/',
    }
}

/// An absolute path, if the text is one.
fn absolute_route(alloc: Global, text: &str) -> Result<Option<Path>, NoMemory>
    ensures { IfOk result (λ path. path ≡ absolute_route text.now) }
{
    match Path::parse(alloc, text) {
        Ok(path) => Ok(Some(path)),
        Err(PathError::Memory) => Err(NoMemory),
        Err(_) => Ok(None),
    }
}

/// The path of a name in this folder, if the text is a name that fits there.
fn entry_route(alloc: Global, folder: &Path, text: &str) -> Result<Option<Path>, NoMemory>
    ensures { IfOk result (λ path. path ≡ entry_route folder.now text.now) }
{
    let name = match Name::new(alloc, text) {
        Ok(name) => name,
        Err(NameError::Memory) => return Err(NoMemory),
        Err(_) => return Ok(None),
    };
    match folder.join(alloc, &name) {
        Ok(path) => Ok(Some(path)),
        Err(PathError::Memory) => Err(NoMemory),
        Err(_) => Ok(None),
    }
}
