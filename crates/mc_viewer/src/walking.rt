//! The rows of what is viewed: where each ends, and which holds a byte.
ghost use Rattle.std.specs.Prelude.{◌≡◌, ℕ, ◌+◌, ◌-◌, ◌<◌, ◌≤◌, ◌^◌, min};
ghost use Rattle.std.specs.Prelude.{max, length, drop, IfOk, IfErr, true};
ghost use Rattle.tree_trait.specs.Answers.{IfKnown, HasCause};
ghost use Rattle.mc_viewer.specs.Viewing.{IfHeld, IsReadError, AsTheTreeSays, is_output};
ghost use Rattle.mc_viewer.specs.Rows.{row_length, all_rows, row_holding, row_after, IsRow};

use crate::error::ViewError;
use crate::layout::{Layout, Shape};
use crate::lines::{line_begin, line_end};
use crate::reading::piece;
use crate::rows::wrapped_length;
use crate::subject::Subject;
use std::alloc::Global;
use tree_trait::{ReadTree, TreeError};

/// Where the row from a place on ends.
pub fn row_end<T: ReadTree>(
    alloc: Global,
    tree: &mut T,
    subject: &Subject,
    layout: Layout,
    size: u64,
    at: u64,
) -> Result<u64, ViewError>
    requires inside { at < size }
    requires small { size ≤ 2 ^ 63 }
    requires wide { 1 ≤ layout.columns }
    ensures shown { IfHeld (T.contents tree.old) subject.now size (λ bytes.
        IfOk result (λ end. end ≡ at + row_length layout.shape layout.columns (drop at bytes))) }
    ensures further { IfOk result (λ end. at < end) }
    ensures within { IfOk result (λ end. end ≤ size) }
    ensures refused { IfKnown (T.contents tree.old) (λ log. IfErr result (AsTheTreeSays log subject.now)) }
    ensures kinds { IfErr result IsReadError }
    ensures same { T.contents tree.new ≡ T.contents tree.old }
    ensures apart { is_output subject.now ≡ true → tree.new ≡ tree.old }
    ensures cause { HasCause (ViewError.Tree TreeError.Fault) (T.fault_count tree.old)
        (T.fault_count tree.new) result }
{
    match layout.shape {
        Shape::Wrapped => wrapped_end(alloc, tree, subject, layout.columns, size, at),
        Shape::Unwrapped => line_end(alloc, tree, subject, size, at),
        Shape::Hex => Ok(size.min(at + 16)),
    }
}

/// Where the wrapped row from a place on ends. A character has four bytes at most, so it reads four for
/// each column, and nine more.
fn wrapped_end<T: ReadTree>(
    alloc: Global,
    tree: &mut T,
    subject: &Subject,
    columns: u16,
    size: u64,
    at: u64,
) -> Result<u64, ViewError>
    requires inside { at < size }
    requires small { size ≤ 2 ^ 63 }
    requires wide { 1 ≤ columns }
    ensures shown { IfHeld (T.contents tree.old) subject.now size (λ bytes.
        IfOk result (λ end. end ≡ at + row_length Shape.Wrapped columns (drop at bytes))) }
    ensures further { IfOk result (λ end. at < end) }
    ensures within { IfOk result (λ end. end ≤ size) }
    ensures refused { IfKnown (T.contents tree.old) (λ log. IfErr result (AsTheTreeSays log subject.now)) }
    ensures kinds { IfErr result IsReadError }
    ensures same { T.contents tree.new ≡ T.contents tree.old }
    ensures apart { is_output subject.now ≡ true → tree.new ≡ tree.old }
    ensures cause { HasCause (ViewError.Tree TreeError.Fault) (T.fault_count tree.old)
        (T.fault_count tree.new) result }
{
    let columns = columns as usize;
    let window = piece(alloc, tree, subject, at, 4 * columns + 9)?;
    Ok(end_behind(at, wrapped_length(window.as_slice(), columns), size))
}

/// So many bytes further, at least one, and at most at the end.
pub fn end_behind(at: u64, count: usize, size: u64) -> u64
    requires low { at ≤ 2 ^ 63 }
    requires few { count < 2 ^ 60 }
    ensures { result ≡ min size (at + max 1 count) }
{
    size.min(at + (count as u64).max(1))
}

/// The row that holds a byte, or the last row.
pub fn row_holding<T: ReadTree>(
    alloc: Global,
    tree: &mut T,
    subject: &Subject,
    layout: Layout,
    size: u64,
    byte: u64,
) -> Result<u64, ViewError>
    requires small { size ≤ 2 ^ 63 }
    requires wide { 1 ≤ layout.columns }
    ensures shown { IfHeld (T.contents tree.old) subject.now size (λ bytes.
        IfOk result (λ row. row ≡ row_holding layout.shape layout.columns bytes byte)) }
    ensures row { IfHeld (T.contents tree.old) subject.now size (λ bytes.
        IfOk result (IsRow layout.shape layout.columns bytes)) }
    ensures within { IfOk result (λ row. row ≤ size - 1) }
    ensures refused { IfKnown (T.contents tree.old) (λ log. IfErr result (AsTheTreeSays log subject.now)) }
    ensures kinds { IfErr result IsReadError }
    ensures same { T.contents tree.new ≡ T.contents tree.old }
    ensures apart { is_output subject.now ≡ true → tree.new ≡ tree.old }
    ensures cause { HasCause (ViewError.Tree TreeError.Fault) (T.fault_count tree.old)
        (T.fault_count tree.new) result }
{
    if size == 0 {
        return Ok(0);
    }
    let from = row_before(alloc, tree, subject, layout.shape, size, byte.min(size - 1))?;
    let row = walk(alloc, tree, subject, layout, size, from, byte)?;
    Ok(row)
}

/// A row that begins at a byte or before it: where its line begins, or, in hexadecimal, at
/// the multiple of sixteen.
fn row_before<T: ReadTree>(
    alloc: Global,
    tree: &mut T,
    subject: &Subject,
    shape: Shape,
    size: u64,
    byte: u64,
) -> Result<u64, ViewError>
    requires inside { byte < size }
    requires small { size ≤ 2 ^ 63 }
    ensures row { IfHeld (T.contents tree.old) subject.now size (λ bytes.
        IfOk result (λ row. (columns : ℕ) → IsRow shape columns bytes row)) }
    ensures before { IfOk result (λ row. row ≤ byte) }
    ensures refused { IfKnown (T.contents tree.old) (λ log. IfErr result (AsTheTreeSays log subject.now)) }
    ensures kinds { IfErr result IsReadError }
    ensures same { T.contents tree.new ≡ T.contents tree.old }
    ensures apart { is_output subject.now ≡ true → tree.new ≡ tree.old }
    ensures cause { HasCause (ViewError.Tree TreeError.Fault) (T.fault_count tree.old)
        (T.fault_count tree.new) result }
{
    match shape {
        Shape::Hex => Ok(byte - byte % 16),
        _ => line_begin(alloc, tree, subject, byte),
    }
}

/// Goes from row to row, up to the one that holds a byte, or the last one.
fn walk<T: ReadTree>(
    alloc: Global,
    tree: &mut T,
    subject: &Subject,
    layout: Layout,
    size: u64,
    from: u64,
    byte: u64,
) -> Result<u64, ViewError>
    requires inside { from < size }
    requires before { from ≤ byte }
    requires small { size ≤ 2 ^ 63 }
    requires wide { 1 ≤ layout.columns }
    ensures shown { IfHeld (T.contents tree.old) subject.now size (λ bytes.
        IsRow layout.shape layout.columns bytes from
        → IfOk result (λ row. row ≡ row_holding layout.shape layout.columns bytes byte)) }
    ensures row { IfHeld (T.contents tree.old) subject.now size (λ bytes.
        IsRow layout.shape layout.columns bytes from
        → IfOk result (IsRow layout.shape layout.columns bytes)) }
    ensures within { IfOk result (λ row. row < size) }
    ensures refused { IfKnown (T.contents tree.old) (λ log. IfErr result (AsTheTreeSays log subject.now)) }
    ensures kinds { IfErr result IsReadError }
    ensures same { T.contents tree.new ≡ T.contents tree.old }
    ensures apart { is_output subject.now ≡ true → tree.new ≡ tree.old }
    ensures cause { HasCause (ViewError.Tree TreeError.Fault) (T.fault_count tree.old)
        (T.fault_count tree.new) result }
{
    let mut row = from;
    loop {
        let end = row_end(alloc, tree, subject, layout, size, row)?;
        if end > byte {
            return Ok(row);
        }
        if end == size {
            return Ok(row);
        }
        row = end;
    }
}

/// The row behind a row, or that row where it is the last one.
pub fn row_below<T: ReadTree>(
    alloc: Global,
    tree: &mut T,
    subject: &Subject,
    layout: Layout,
    size: u64,
    row: u64,
) -> Result<u64, ViewError>
    requires inside { row ≤ size - 1 }
    requires small { size ≤ 2 ^ 63 }
    requires wide { 1 ≤ layout.columns }
    ensures shown { IfHeld (T.contents tree.old) subject.now size (λ bytes.
        IsRow layout.shape layout.columns bytes row
        → IfOk result (λ below. below ≡ row_after row (all_rows layout.shape layout.columns bytes))) }
    ensures row { IfHeld (T.contents tree.old) subject.now size (λ bytes.
        IsRow layout.shape layout.columns bytes row
        → IfOk result (IsRow layout.shape layout.columns bytes)) }
    ensures within { IfOk result (λ below. below ≤ size - 1) }
    ensures refused { IfKnown (T.contents tree.old) (λ log. IfErr result (AsTheTreeSays log subject.now)) }
    ensures kinds { IfErr result IsReadError }
    ensures same { T.contents tree.new ≡ T.contents tree.old }
    ensures apart { is_output subject.now ≡ true → tree.new ≡ tree.old }
    ensures cause { HasCause (ViewError.Tree TreeError.Fault) (T.fault_count tree.old)
        (T.fault_count tree.new) result }
{
    if size == 0 {
        return Ok(row);
    }
    let end = row_end(alloc, tree, subject, layout, size, row)?;
    if end < size {
        return Ok(end);
    }
    Ok(row)
}
