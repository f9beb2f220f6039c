//! The row above a row, seen in a piece that is kept where its line is short.
ghost use Rattle.std.specs.Prelude.{◌≡◌, ◌+◌, ◌-◌, ◌<◌, ◌≤◌, ◌^◌, ℕ, List, length};
ghost use Rattle.std.specs.Prelude.{take, drop, get_or, IfOk, IfErr, IfSome, true, All};
ghost use Rattle.std.specs.Bool.{OnTrue};
ghost use Rattle.tree_trait.specs.Answers.{IfKnown, HasCause};
ghost use Rattle.mc_viewer.specs.Viewing.{held_bytes, IfHeld, IsReadError, AsTheTreeSays, is_output};
ghost use Rattle.mc_viewer.specs.Rows.{row_holding, wrapped_length, IsLineStart};
ghost use Rattle.mc_viewer.specs.Units.{is_plain};
ghost use Rattle.mc_viewer.specs.Windows.{IsPieceAt, IsKept};

use crate::error::ViewError;
use crate::layout::{Layout, Shape};
use crate::near::Near;
use crate::reading::piece;
use crate::subject::Subject;
use crate::units::{front, is_plain, rest_from};
use crate::walking::row_holding;
use memchr::memrchr;
use std::alloc::Global;
use tree_trait::{ReadTree, TreeError};

/// The bytes before a row that are read at once.
const LOOK_BACK: u64 = 4096;

/// The row that holds the byte before a row.
pub fn row_above<T: ReadTree>(
    alloc: Global,
    tree: &mut T,
    subject: &Subject,
    layout: Layout,
    size: u64,
    near: &mut Near,
    row: u64,
) -> Result<u64, ViewError>
    requires small { size ≤ 2 ^ 63 }
    requires wide { 1 ≤ layout.columns }
    requires kept { IsKept (T.contents tree.old) subject.now near.old.start near.old.bytes.items }
    ensures shown { IfHeld (T.contents tree.old) subject.now size (λ bytes.
        IfOk result (λ above. above ≡ row_holding layout.shape layout.columns bytes (row - 1))) }
    ensures kept { IsKept (T.contents tree.new) subject.now near.new.start near.new.bytes.items }
    ensures refused { IfKnown (T.contents tree.old) (λ log. IfErr result (AsTheTreeSays log subject.now)) }
    ensures kinds { IfErr result IsReadError }
    ensures same { T.contents tree.new ≡ T.contents tree.old }
    ensures apart { is_output subject.now ≡ true → tree.new ≡ tree.old }
    ensures cause { HasCause (ViewError.Tree TreeError.Fault) (T.fault_count tree.old)
        (T.fault_count tree.new) result }
{
    let byte = row.saturating_sub(1);
    if byte >= size {
        return row_holding(alloc, tree, subject, layout, size, byte);
    }
    look_back(alloc, tree, subject, layout, near, byte)?;
    if let Some(start) = short_row(near, layout, byte) {
        return Ok(start);
    }
    row_holding(alloc, tree, subject, layout, size, byte)
}

/// Reads the bytes up to one of them, where the piece doesn't show the beginning of its line. Rows
/// in hexadecimal need none.
fn look_back<T: ReadTree>(
    alloc: Global,
    tree: &mut T,
    subject: &Subject,
    layout: Layout,
    near: &mut Near,
    byte: u64,
) -> Result<(), ViewError>
    requires low { byte < 2 ^ 63 }
    requires kept { IsKept (T.contents tree.old) subject.now near.old.start near.old.bytes.items }
    ensures kept { IsKept (T.contents tree.new) subject.now near.new.start near.new.bytes.items }
    ensures refused { IfKnown (T.contents tree.old) (λ log. IfErr result (AsTheTreeSays log subject.now)) }
    ensures kinds { IfErr result IsReadError }
    ensures same { T.contents tree.new ≡ T.contents tree.old }
    ensures apart { is_output subject.now ≡ true → tree.new ≡ tree.old }
    ensures cause { HasCause (ViewError.Tree TreeError.Fault) (T.fault_count tree.old)
        (T.fault_count tree.new) result }
{
    if layout.shape == Shape::Hex {
        return Ok(());
    }
    if let Some(_line) = line_front(near, byte) {
        return Ok(());
    }
    let start = (byte + 1).saturating_sub(LOOK_BACK);
    let piece = piece(alloc, tree, subject, start, (byte + 1 - start) as usize)?;
    near.start = start;
    near.bytes = piece;
    Ok(())
}

/// Where a line begins in a piece, and how many of its bytes stand before one of them.
#[derive(Clone, Copy, Drop)]
struct LineFront {
    first: usize,
    count: usize,
}

/// The front of the line of a byte, if the piece shows it whole.
fn line_front(near: &Near, byte: u64) -> Option<LineFront>
    ensures line { IfSome result (λ line. (bytes : List ℕ)
        → IsPieceAt bytes near.now.start near.now.bytes.items
        → IsLineStart bytes (near.now.start + line.first)) }
    ensures place { IfSome result (λ line. near.now.start + line.first + line.count ≡ byte) }
    ensures within { IfSome result (λ line. line.first + line.count < length near.now.bytes.items) }
{
    if byte < near.start {
        return None;
    }
    let place = byte - near.start;
    if place >= near.bytes.len() as u64 {
        return None;
    }
    let place = place as usize;
    match memrchr(b'\n', front(near.bytes.as_slice(), place)) {
        Some(newline) => Some(LineFront {
            first: newline + 1,
            count: place - newline - 1,
        }),
        None => file_front(near.start, place),
    }
}

/// The front of the first line, in a piece that begins with it.
fn file_front(start: u64, place: usize) -> Option<LineFront>
    ensures { IfSome result (λ line. (start ≡ 0) × ((line.first ≡ 0) × (line.count ≡ place))) }
{
    if start == 0 {
        Some(LineFront {
            first: 0,
            count: place,
        })
    } else {
        None
    }
}

/// The row that holds a byte, where the piece shows it.
fn short_row(near: &Near, layout: Layout, byte: u64) -> Option<u64>
    ensures { IfSome result (λ row. (bytes : List ℕ) → IsPieceAt bytes near.now.start near.now.bytes.items
        → byte < length bytes → row ≡ row_holding layout.shape layout.columns bytes byte) }
{
    match layout.shape {
        Shape::Wrapped => short_wrapped(near, layout.columns, byte),
        _ => None,
    }
}

/// The wrapped row that holds a byte, where the piece shows that it is the first of its line: up to the
/// byte there are no more characters than columns, and all are printable ones of ASCII.
fn short_wrapped(near: &Near, columns: u16, byte: u64) -> Option<u64>
    ensures { IfSome result (λ row. (bytes : List ℕ) → IsPieceAt bytes near.now.start near.now.bytes.items
        → byte < length bytes → row ≡ row_holding Shape.Wrapped columns bytes byte) }
{
    let Some(line) = line_front(near, byte) else {
        return None;
    };
    let rest = rest_from(near.bytes.as_slice(), line.first);
    if reaches(rest, columns as usize, line.count) {
        Some(near.start + line.first as u64)
    } else {
        None
    }
}

/// Whether the first row of some bytes has more than so many of them, seen without a table of characters.
fn reaches(bytes: &[u8], columns: usize, count: usize) -> bool
    requires { count < length bytes.now }
    ensures { OnTrue result ((more : List ℕ) → bytes.now ≡ take (length bytes.now) more
        → count < wrapped_length columns 0 0 more) }
{
    if count > columns {
        return false;
    }
    if !are_plain(front(bytes, count)) {
        return false;
    }
    if bytes[count] == b'\n' {
        return true;
    }
    count < columns && is_plain(bytes[count])
}

/// Whether all bytes are printable characters of ASCII.
fn are_plain(bytes: &[u8]) -> bool
    ensures { OnTrue result (All (λ byte. is_plain byte ≡ true) bytes.now) }
{
    bytes.iter().all(|byte| is_plain(*byte))
}
