//! The bytes of a file that is opened.
ghost use Rattle.std.specs.Prelude.{◌≡◌, ◌≤◌, IfErr, IfOk};
ghost use Rattle.tree_trait.specs.Calls.{ReadAt};
ghost use Rattle.tree_trait.specs.Answers.{HasCause, IfKnown, Reads};
ghost use Rattle.ui_editor.specs.EditorOpenings.{IsBeginning, IsFront, IsRefused, bytes_at};

use mc_text::Path;
use std::alloc::Global;
use tree_trait::{ReadTree, TreeError};

/// So many bytes are read at first, so that a short file takes little memory.
const SHORT_FILE: usize = 65_536;

/// At most so many of the first bytes of a file.
pub fn first_bytes<T: ReadTree>(
    alloc: Global,
    tree: &mut T,
    path: &Path,
    most: usize,
) -> Result<Vec<u8>, TreeError>
    requires { SHORT_FILE ≤ most }
    ensures front { IfOk result (λ first. IsFront (T.contents tree.old) path.now most first.items) }
    ensures refused { IfErr result (IsRefused (T.contents tree.old) path.now) }
    ensures same { T.contents tree.new ≡ T.contents tree.old }
    ensures cause { HasCause TreeError.Fault (T.fault_count tree.old) (T.fault_count tree.new) result }
{
    match front(alloc, tree, path, SHORT_FILE) {
        Ok(short) => {
            if short.as_slice().len() < SHORT_FILE {
                return Ok(short);
            }
            drop(short);
            front(alloc, tree, path, most)
        }
        Err(error) => Err(error),
    }
}

/// At most so many of the first bytes of a file, for which room is made.
fn front<T: ReadTree>(
    alloc: Global,
    tree: &mut T,
    path: &Path,
    most: usize,
) -> Result<Vec<u8>, TreeError>
    ensures answer { IfKnown (T.contents tree.old) (λ log. Reads log (ReadAt path.now 0 0) result (λ front.
        IsBeginning (bytes_at log path.now) most front.items)) }
    ensures same { T.contents tree.new ≡ T.contents tree.old }
    ensures cause { HasCause TreeError.Fault (T.fault_count tree.old) (T.fault_count tree.new) result }
{
    let Ok(mut bytes) = vec![in alloc; 0u8; most] else {
        return Err(TreeError::Memory);
    };
    match tree.read_at(alloc, path, 0, bytes.as_mut_slice()) {
        Ok(count) => {
            bytes.truncate(count);
            Ok(bytes)
        }
        Err(error) => Err(error),
    }
}
