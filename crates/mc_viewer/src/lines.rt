//! Where lines begin and end, read piece by piece.
ghost use Rattle.std.specs.Prelude.{◌≡◌, ◌+◌, ◌<◌, ◌≤◌, ◌^◌, length, drop, IfOk, IfErr, true};
ghost use Rattle.tree_trait.specs.Answers.{IfKnown, HasCause};
ghost use Rattle.mc_viewer.specs.Viewing.{held_bytes, IfHeld, IsReadError, AsTheTreeSays, is_output};
ghost use Rattle.mc_viewer.specs.Rows.{line_length, IsLineStart, line_behind};

use crate::error::ViewError;
use crate::passing::pass_lines;
use crate::reading::piece;
use crate::subject::Subject;
use memchr::{memchr, memrchr};
use std::alloc::Global;
use tree_trait::{ReadTree, TreeError};

/// The bytes that a search for a line's start or end reads at once.
const LINE_PIECE: u64 = 4096;

/// The bytes in which lines are counted at once.
const COUNTED_PIECE: usize = 65_536;

/// Where the line of a byte begins. It reads back from there.
pub fn line_begin<T: ReadTree>(
    alloc: Global,
    tree: &mut T,
    subject: &Subject,
    at: u64,
) -> Result<u64, ViewError>
    requires { at ≤ 2 ^ 63 }
    ensures shown { IfKnown (held_bytes (T.contents tree.old) subject.now) (λ bytes.
        IfOk result (IsLineStart bytes)) }
    ensures before { IfOk result (λ start. start ≤ at) }
    ensures refused { IfKnown (T.contents tree.old) (λ log. IfErr result (AsTheTreeSays log subject.now)) }
    ensures kinds { IfErr result IsReadError }
    ensures same { T.contents tree.new ≡ T.contents tree.old }
    ensures apart { is_output subject.now ≡ true → tree.new ≡ tree.old }
    ensures cause { HasCause (ViewError.Tree TreeError.Fault) (T.fault_count tree.old)
        (T.fault_count tree.new) result }
{
    let mut end = at;
    while end > 0 {
        let start = end.saturating_sub(LINE_PIECE);
        let piece = piece(alloc, tree, subject, start, (end - start) as usize)?;
        if let Some(newline) = memrchr(b'\n', piece.as_slice()) {
            return Ok(start + newline as u64 + 1);
        }
        end = start;
    }
    Ok(0)
}

/// Where the line from a place on ends, behind its newline.
pub fn line_end<T: ReadTree>(
    alloc: Global,
    tree: &mut T,
    subject: &Subject,
    size: u64,
    at: u64,
) -> Result<u64, ViewError>
    requires inside { at < size }
    requires small { size ≤ 2 ^ 63 }
    ensures shown { IfHeld (T.contents tree.old) subject.now size (λ bytes.
        IfOk result (λ end. end ≡ at + line_length (drop at bytes))) }
    ensures further { IfOk result (λ end. at < end) }
    ensures within { IfOk result (λ end. end ≤ size) }
    ensures refused { IfKnown (T.contents tree.old) (λ log. IfErr result (AsTheTreeSays log subject.now)) }
    ensures kinds { IfErr result IsReadError }
    ensures same { T.contents tree.new ≡ T.contents tree.old }
    ensures apart { is_output subject.now ≡ true → tree.new ≡ tree.old }
    ensures cause { HasCause (ViewError.Tree TreeError.Fault) (T.fault_count tree.old)
        (T.fault_count tree.new) result }
{
    let mut end = at;
    while end < size {
        let piece = piece(alloc, tree, subject, end, LINE_PIECE as usize)?;
        if let Some(newline) = memchr(b'\n', piece.as_slice()) {
            return Ok(size.min(end + newline as u64 + 1));
        }
        if piece.len() == 0 {
            return Ok(size);
        }
        end = size.min(end + piece.len() as u64);
    }
    Ok(end)
}

/// Where a line begins that so many others stand before, or where the file ends. Each
/// byte before it is read once.
pub fn line_behind<T: ReadTree>(
    alloc: Global,
    tree: &mut T,
    subject: &Subject,
    size: u64,
    lines: u64,
) -> Result<u64, ViewError>
    requires small { size ≤ 2 ^ 63 }
    ensures shown { IfHeld (T.contents tree.old) subject.now size (λ bytes.
        IfOk result (λ start. start ≡ line_behind lines bytes 0)) }
    ensures refused { IfKnown (T.contents tree.old) (λ log. IfErr result (AsTheTreeSays log subject.now)) }
    ensures kinds { IfErr result IsReadError }
    ensures same { T.contents tree.new ≡ T.contents tree.old }
    ensures apart { is_output subject.now ≡ true → tree.new ≡ tree.old }
    ensures cause { HasCause (ViewError.Tree TreeError.Fault) (T.fault_count tree.old)
        (T.fault_count tree.new) result }
{
    let mut start = 0;
    let mut left = lines;
    while start < size {
        if left == 0 {
            return Ok(start);
        }
        let piece = piece(alloc, tree, subject, start, COUNTED_PIECE)?;
        if piece.len() == 0 {
            return Ok(size);
        }
        let passed = pass_lines(piece.as_slice(), left);
        start = size.min(start + passed.bytes as u64);
        left = passed.left;
    }
    Ok(start)
}
