//! Whether a file holds some bytes, among as many as it was said to have.
ghost use Rattle.std.specs.Prelude.{◌≡◌, ◌≤◌, ◌<◌, ◌-◌, ◌++◌, length};
ghost use Rattle.std.specs.Prelude.{drop, take, IfOk, IfSome, MatchOption};
ghost use Rattle.tree_trait.specs.Calls.{ReadAt};
ghost use Rattle.tree_trait.specs.FileSystem.{node};
ghost use Rattle.tree_trait.specs.Change.{current, found_node};
ghost use Rattle.tree_trait.specs.Answers.{HasCause, IfKnown, Reads};
ghost use Rattle.find_file.specs.FoundList.{holds};

use mc_text::Path;
use memchr::memmem::Finder;
use std::alloc::{AllocError, Global};
use tree_trait::{ReadTree, TreeError};

/// The most bytes that a piece has.
const PIECE_BYTES: u64 = 65536;

/// Whether a file holds these bytes, of which there are some, among so many of its first ones: no more are
/// read, however many it gives. It is read piece by piece up to the first place, and as many bytes are kept
/// from one piece to the next as may begin a place.
pub fn file_holds<T: ReadTree>(
    alloc: Global,
    tree: &mut T,
    path: &Path,
    content: &[u8],
    size: u64,
) -> Result<bool, TreeError>
    requires some { 1 ≤ length content.now }
    requires more { 0 < size }
    ensures answer { IfKnown (T.contents tree.old) (λ log. Reads log (ReadAt path.now 0 0) result (λ is.
        is ≡ holds content.now (take size (node (current log) (found_node (current log) path.now)).bytes))) }
    ensures same { T.contents tree.new ≡ T.contents tree.old }
    ensures cause { HasCause TreeError.Fault (T.fault_count tree.old) (T.fault_count tree.new) result }
{
    read_through(
        alloc,
        tree,
        path,
        &Finder::new(content),
        content.len(),
        size,
    )
}

/// Reads so many of a file's first bytes, up to the first place where the finder's bytes stand among them.
fn read_through<T: ReadTree>(
    alloc: Global,
    tree: &mut T,
    path: &Path,
    finder: &Finder<'_>,
    width: usize,
    size: u64,
) -> Result<bool, TreeError>
    requires width { width ≡ length finder.now }
    requires some { 1 ≤ length finder.now }
    requires more { 0 < size }
    ensures answer { IfKnown (T.contents tree.old) (λ log. Reads log (ReadAt path.now 0 0) result (λ is.
        is ≡ holds finder.now (take size (node (current log) (found_node (current log) path.now)).bytes))) }
    ensures same { T.contents tree.new ≡ T.contents tree.old }
    ensures cause { HasCause TreeError.Fault (T.fault_count tree.old) (T.fault_count tree.new) result }
{
    let mut kept = Vec::new(alloc);
    let mut offset = 0;
    while offset < size {
        let most = piece_size(size - offset);
        let piece = match next_piece(alloc, tree, path, offset, most) {
            Ok(Some(piece)) => piece,
            Ok(None) => return Ok(false),
            Err(error) => return Err(error),
        };
        let bytes = piece.as_slice();
        let Ok(stretch) = joined(alloc, kept.as_slice(), bytes) else {
            return Err(TreeError::Memory);
        };
        if is_in(finder, stretch.as_slice()) {
            return Ok(true);
        }
        let Ok(last) = last_of(alloc, stretch.as_slice(), width - 1) else {
            return Err(TreeError::Memory);
        };
        kept = last;
        offset += bytes.len() as u64;
    }
    Ok(false)
}

/// How many bytes the next piece has at most, where so many are left to be read.
fn piece_size(left: u64) -> usize
    requires { 0 < left }
    ensures some { 1 ≤ result }
    ensures within { result ≤ left }
{
    left.min(PIECE_BYTES) as usize
}

/// The next piece of a file from an offset on, of at most so many bytes. At the file's end there is none.
fn next_piece<T: ReadTree>(
    alloc: Global,
    tree: &mut T,
    path: &Path,
    offset: u64,
    most: usize,
) -> Result<Option<Vec<u8>>, TreeError>
    requires { 1 ≤ most }
    ensures answer { IfKnown (T.contents tree.old) (λ log. Reads log (ReadAt path.now 0 0) result (λ piece.
        let file = (node (current log) (found_node (current log) path.now)).bytes in
        MatchOption piece (length file ≤ offset) (λ bytes.
        bytes.items ≡ take (length bytes.items) (drop offset file)))) }
    ensures some { IfOk result (λ piece. IfSome piece (λ bytes. 1 ≤ length bytes.items)) }
    ensures few { IfOk result (λ piece. IfSome piece (λ bytes. length bytes.items ≤ most)) }
    ensures same { T.contents tree.new ≡ T.contents tree.old }
    ensures cause { HasCause TreeError.Fault (T.fault_count tree.old) (T.fault_count tree.new) result }
{
    let Ok(mut bytes) = vec![in alloc; 0u8; most] else {
        return Err(TreeError::Memory);
    };
    match tree.read_at(alloc, path, offset, bytes.as_mut_slice()) {
        Ok(0) => Ok(None),
        Ok(count) => {
            bytes.truncate(count);
            Ok(Some(bytes))
        }
        Err(error) => Err(error),
    }
}

/// The bytes that were kept, and a piece behind them.
fn joined(alloc: Global, kept: &[u8], piece: &[u8]) -> Result<Vec<u8>, AllocError>
    ensures { IfOk result (λ stretch. stretch.items ≡ kept.now ++ piece.now) }
{
    let mut stretch = Vec::from_slice(alloc, kept)?;
    stretch.extend_from_slice(piece)?;
    Ok(stretch)
}

/// The last of some bytes, at most so many.
fn last_of(alloc: Global, bytes: &[u8], count: usize) -> Result<Vec<u8>, AllocError>
    ensures { IfOk result (λ last. last.items ≡ drop (length bytes.now - count) bytes.now) }
{
    Vec::from_slice(alloc, &bytes[bytes.len().saturating_sub(count)..])
}

/// Whether the finder's bytes stand anywhere among these.
fn is_in(finder: &Finder<'_>, bytes: &[u8]) -> bool
    requires { 1 ≤ length finder.now }
    ensures { result ≡ holds finder.now bytes.now }
{
    finder.find(bytes).is_some()
}
