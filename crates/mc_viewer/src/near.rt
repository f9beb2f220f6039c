//! A piece of what is viewed, kept while the rows in it are looked at, so that its bytes are read once.
ghost use Rattle.std.specs.Prelude.{◌≡◌, ◌+◌, ◌<◌, ◌≤◌, ◌^◌, ℕ, List, length};
ghost use Rattle.std.specs.Prelude.{take, drop, IfOk, IfErr, IfSome, true};
ghost use Rattle.tree_trait.specs.Answers.{IfKnown, HasCause};
ghost use Rattle.mc_viewer.specs.Viewing.{held_bytes, IsReadError, AsTheTreeSays, is_output};
ghost use Rattle.mc_viewer.specs.Windows.{IsPieceAt, IsKept};

use crate::error::ViewError;
use crate::reading::piece;
use crate::subject::Subject;
use crate::units::{front, rest_from};
use std::alloc::{AllocError, Global};
use tree_trait::{ReadTree, TreeError};

/// The bytes that are read at once, unless more are asked for.
const KEPT_BYTES: usize = 4096;

/// The place where the piece begins, and its bytes.
#[derive(Debug, Drop)]
pub struct Near {
    pub start: u64,
    pub bytes: Vec<u8>,
}

/// No bytes.
pub fn nothing_near(alloc: Global) -> Near
    ensures { (bytes : List ℕ) → IsPieceAt bytes result.start result.bytes.items }
{
    Near {
        start: 0,
        bytes: Vec::new(alloc),
    }
}

/// At most so many of the bytes from a place on. They are read where the piece doesn't hold
/// them, with those behind them.
pub fn piece_near<T: ReadTree>(
    alloc: Global,
    tree: &mut T,
    subject: &Subject,
    near: &mut Near,
    at: u64,
    count: usize,
) -> Result<Vec<u8>, ViewError>
    requires kept { IsKept (T.contents tree.old) subject.now near.old.start near.old.bytes.items }
    ensures shown { IfKnown (held_bytes (T.contents tree.old) subject.now) (λ bytes.
        IfOk result (λ piece. piece.items ≡ take count (drop at bytes))) }
    ensures short { IfOk result (λ piece. length piece.items ≤ count) }
    ensures kept { IsKept (T.contents tree.new) subject.now near.new.start near.new.bytes.items }
    ensures refused { IfKnown (T.contents tree.old) (λ log. IfErr result (AsTheTreeSays log subject.now)) }
    ensures kinds { IfErr result IsReadError }
    ensures same { T.contents tree.new ≡ T.contents tree.old }
    ensures apart { is_output subject.now ≡ true → tree.new ≡ tree.old }
    ensures cause { HasCause (ViewError.Tree TreeError.Fault) (T.fault_count tree.old)
        (T.fault_count tree.new) result }
{
    if let Some(place) = place_in(near, at, count) {
        return Ok(part(alloc, near.bytes.as_slice(), place, count)?);
    }
    let piece = piece(alloc, tree, subject, at, count.max(KEPT_BYTES))?;
    let wanted = part(alloc, piece.as_slice(), 0, count)?;
    near.start = at;
    near.bytes = piece;
    Ok(wanted)
}

/// Where in the piece so many bytes from a place on stand, if it holds them all.
fn place_in(near: &Near, at: u64, count: usize) -> Option<usize>
    ensures place { IfSome result (λ place. near.now.start + place ≡ at) }
    ensures within { IfSome result (λ place. place + count ≤ length near.now.bytes.items) }
{
    if at < near.start {
        return None;
    }
    let place = at - near.start;
    if place > near.bytes.len() as u64 {
        return None;
    }
    let place = place as usize;
    if near.bytes.len() - place < count {
        return None;
    }
    Some(place)
}

/// At most so many bytes from a place on.
fn part(alloc: Global, bytes: &[u8], place: usize, count: usize) -> Result<Vec<u8>, AllocError>
    requires { place ≤ length bytes.now }
    ensures value { IfOk result (λ part. part.items ≡ take count (drop place bytes.now)) }
    ensures short { IfOk result (λ part. length part.items ≤ count) }
{
    Vec::from_slice(alloc, front(rest_from(bytes, place), count))
}
