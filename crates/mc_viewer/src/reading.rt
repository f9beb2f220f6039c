//! What is viewed, read piece by piece.
ghost use Rattle.std.specs.Prelude.{◌≡◌, ◌≤◌, ◌^◌, length, take, drop, IfOk, IfErr, true};
ghost use Rattle.tree_trait.specs.Answers.{IfKnown, HasCause};
ghost use Rattle.mc_viewer.specs.Viewing.{held_bytes, IsReadable, IsReadError, AsTheTreeSays, is_output};

use crate::error::ViewError;
use crate::subject::Subject;
use crate::units::{front, rest_from};
use mc_text::{Bytes, Path};
use std::alloc::{AllocError, Global};
use tree_trait::{ReadTree, TreeError};

/// At most so many of the bytes from a place on.
pub fn piece<T: ReadTree>(
    alloc: Global,
    tree: &mut T,
    subject: &Subject,
    at: u64,
    count: usize,
) -> Result<Vec<u8>, ViewError>
    ensures shown { IfKnown (held_bytes (T.contents tree.old) subject.now) (λ bytes.
        IfOk result (λ piece. piece.items ≡ take count (drop at bytes))) }
    ensures short { IfOk result (λ piece. length piece.items ≤ count) }
    ensures readable { IfKnown (T.contents tree.old) (λ log. IfOk result (λ _. IsReadable log subject.now)) }
    ensures refused { IfKnown (T.contents tree.old) (λ log. IfErr result (AsTheTreeSays log subject.now)) }
    ensures kinds { IfErr result IsReadError }
    ensures same { T.contents tree.new ≡ T.contents tree.old }
    ensures apart { is_output subject.now ≡ true → tree.new ≡ tree.old }
    ensures cause { HasCause (ViewError.Tree TreeError.Fault) (T.fault_count tree.old)
        (T.fault_count tree.new) result }
{
    match subject {
        Subject::File(path) => file_piece(alloc, tree, path, at, count),
        Subject::Output(bytes) => Ok(part(alloc, bytes.0.as_slice(), at, count)?),
    }
}

fn file_piece<T: ReadTree>(
    alloc: Global,
    tree: &mut T,
    path: &Path,
    at: u64,
    count: usize,
) -> Result<Vec<u8>, ViewError>
    ensures shown { IfKnown (held_bytes (T.contents tree.old) (Subject.File path.now)) (λ bytes.
        IfOk result (λ piece. piece.items ≡ take count (drop at bytes))) }
    ensures short { IfOk result (λ piece. length piece.items ≤ count) }
    ensures readable { IfKnown (T.contents tree.old) (λ log.
        IfOk result (λ _. IsReadable log (Subject.File path.now))) }
    ensures refused { IfKnown (T.contents tree.old) (λ log.
        IfErr result (AsTheTreeSays log (Subject.File path.now))) }
    ensures kinds { IfErr result IsReadError }
    ensures same { T.contents tree.new ≡ T.contents tree.old }
    ensures cause { HasCause (ViewError.Tree TreeError.Fault) (T.fault_count tree.old)
        (T.fault_count tree.new) result }
{
    let mut bytes = vec![in alloc; 0u8; count]?;
    let read = tree.read_at(alloc, path, at, bytes.as_mut_slice())?;
    bytes.truncate(read);
    Ok(bytes)
}

/// At most so many of some bytes from a place on.
fn part(alloc: Global, bytes: &[u8], at: u64, count: usize) -> Result<Vec<u8>, AllocError>
    ensures value { IfOk result (λ part. part.items ≡ take count (drop at bytes.now)) }
    ensures short { IfOk result (λ part. length part.items ≤ count) }
{
    let at = (at as usize).min(bytes.len());
    Vec::from_slice(alloc, front(rest_from(bytes, at), count))
}

/// How many bytes there are. It tries to read one, so that what can't be read is refused.
pub fn size_of<T: ReadTree>(
    alloc: Global,
    tree: &mut T,
    subject: &Subject,
) -> Result<u64, ViewError>
    ensures shown { IfKnown (held_bytes (T.contents tree.old) subject.now) (λ bytes.
        IfOk result (λ size. size ≡ length bytes)) }
    ensures small { IfOk result (λ size. size ≤ 2 ^ 63) }
    ensures readable { IfKnown (T.contents tree.old) (λ log. IfOk result (λ _. IsReadable log subject.now)) }
    ensures refused { IfKnown (T.contents tree.old) (λ log. IfErr result (AsTheTreeSays log subject.now)) }
    ensures kinds { IfErr result IsReadError }
    ensures same { T.contents tree.new ≡ T.contents tree.old }
    ensures apart { is_output subject.now ≡ true → tree.new ≡ tree.old }
    ensures cause { HasCause (ViewError.Tree TreeError.Fault) (T.fault_count tree.old)
        (T.fault_count tree.new) result }
{
    match subject {
        Subject::File(path) => file_size(alloc, tree, path),
        Subject::Output(bytes) => Ok(output_size(bytes)),
    }
}

fn file_size<T: ReadTree>(alloc: Global, tree: &mut T, path: &Path) -> Result<u64, ViewError>
    ensures shown { IfKnown (held_bytes (T.contents tree.old) (Subject.File path.now)) (λ bytes.
        IfOk result (λ size. size ≡ length bytes)) }
    ensures small { IfOk result (λ size. size ≤ 2 ^ 63) }
    ensures readable { IfKnown (T.contents tree.old) (λ log.
        IfOk result (λ _. IsReadable log (Subject.File path.now))) }
    ensures refused { IfKnown (T.contents tree.old) (λ log.
        IfErr result (AsTheTreeSays log (Subject.File path.now))) }
    ensures kinds { IfErr result IsReadError }
    ensures same { T.contents tree.new ≡ T.contents tree.old }
    ensures cause { HasCause (ViewError.Tree TreeError.Fault) (T.fault_count tree.old)
        (T.fault_count tree.new) result }
{
    file_piece(alloc, tree, path, 0, 1)?;
    let meta = tree.stat(alloc, path)?;
    Ok(meta.size)
}

fn output_size(bytes: &Bytes) -> u64
    ensures value { result ≡ length bytes.now }
    ensures small { result ≤ 2 ^ 63 }
{
    bytes.0.as_slice().len() as u64
}
