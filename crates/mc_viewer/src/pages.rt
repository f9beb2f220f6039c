//! What a page shows, row by row.
ghost use Rattle.std.specs.Prelude.{◌≡◌, ◌+◌, ◌<◌, ◌≤◌, ◌^◌, ◌-◌, length, map, take, drop, IfOk, IfErr, true};
ghost use Rattle.tree_trait.specs.Answers.{IfKnown, HasCause};
ghost use Rattle.mc_viewer.specs.Viewing.{held_bytes, IfHeld, IsReadable};
ghost use Rattle.mc_viewer.specs.Viewing.{IsReadError, AsTheTreeSays, is_output};
ghost use Rattle.mc_viewer.specs.Rows.{row_length, row_starts};
ghost use Rattle.mc_viewer.specs.Pages.{shown_row, page_rows};
ghost use Rattle.mc_viewer.specs.Windows.{window_of, IsKept};

use crate::error::ViewError;
use crate::layout::{Layout, Shape};
use crate::near::{Near, nothing_near, piece_near};
use crate::reading::size_of;
use crate::rows::wrapped_length;
use crate::subject::Subject;
use crate::text::{row_text, window_bytes};
use crate::walking::{end_behind, row_end, row_holding};
use mc_text::{Rows, Text};
use std::alloc::Global;
use tree_trait::{ReadTree, TreeError};

/// At most so many rows, from the one that holds the top on.
pub fn page_rows<T: ReadTree>(
    alloc: Global,
    tree: &mut T,
    subject: &Subject,
    layout: Layout,
    count: u16,
    top: u64,
) -> Result<Rows, ViewError>
    requires wide { 1 ≤ layout.columns }
    ensures shown { IfKnown (held_bytes (T.contents tree.old) subject.now) (λ bytes.
        IfOk result (λ rows. rows ≡ page_rows layout count bytes top)) }
    ensures readable { IfKnown (T.contents tree.old) (λ log. IfOk result (λ _. IsReadable log subject.now)) }
    ensures refused { IfKnown (T.contents tree.old) (λ log. IfErr result (AsTheTreeSays log subject.now)) }
    ensures kinds { IfErr result IsReadError }
    ensures same { T.contents tree.new ≡ T.contents tree.old }
    ensures apart { is_output subject.now ≡ true → tree.new ≡ tree.old }
    ensures cause { HasCause (ViewError.Tree TreeError.Fault) (T.fault_count tree.old)
        (T.fault_count tree.new) result }
{
    let size = size_of(alloc, tree, subject)?;
    let first = row_holding(alloc, tree, subject, layout, size, top)?;
    rows_from(alloc, tree, subject, layout, size, first, count)
}

/// At most so many rows, from a row on.
fn rows_from<T: ReadTree>(
    alloc: Global,
    tree: &mut T,
    subject: &Subject,
    layout: Layout,
    size: u64,
    first: u64,
    count: u16,
) -> Result<Rows, ViewError>
    requires small { size ≤ 2 ^ 63 }
    requires wide { 1 ≤ layout.columns }
    ensures shown { IfHeld (T.contents tree.old) subject.now size (λ bytes. IfOk result (λ rows.
        rows ≡ map (shown_row layout bytes)
        (take count (row_starts layout.shape layout.columns first 0 (drop first bytes))))) }
    ensures refused { IfKnown (T.contents tree.old) (λ log. IfErr result (AsTheTreeSays log subject.now)) }
    ensures kinds { IfErr result IsReadError }
    ensures same { T.contents tree.new ≡ T.contents tree.old }
    ensures apart { is_output subject.now ≡ true → tree.new ≡ tree.old }
    ensures cause { HasCause (ViewError.Tree TreeError.Fault) (T.fault_count tree.old)
        (T.fault_count tree.new) result }
{
    let mut near = nothing_near(alloc);
    let mut rows = Rows::new(alloc);
    let mut row = first;
    let mut left = count;
    while row < size {
        if left == 0 {
            return Ok(rows);
        }
        let seen = seen_row(alloc, tree, subject, layout, size, &mut near, row)?;
        rows.push(seen.text)?;
        row = seen.end;
        left -= 1;
    }
    Ok(rows)
}

/// What a row shows, and where it ends.
#[derive(Drop)]
struct SeenRow {
    text: Text,
    end: u64,
}

/// The row that begins at a place.
fn seen_row<T: ReadTree>(
    alloc: Global,
    tree: &mut T,
    subject: &Subject,
    layout: Layout,
    size: u64,
    near: &mut Near,
    row: u64,
) -> Result<SeenRow, ViewError>
    requires inside { row < size }
    requires small { size ≤ 2 ^ 63 }
    requires wide { 1 ≤ layout.columns }
    requires kept { IsKept (T.contents tree.old) subject.now near.old.start near.old.bytes.items }
    ensures text { IfHeld (T.contents tree.old) subject.now size (λ bytes.
        IfOk result (λ seen. seen.text ≡ shown_row layout bytes row)) }
    ensures end { IfHeld (T.contents tree.old) subject.now size (λ bytes.
        IfOk result (λ seen. seen.end ≡ row + row_length layout.shape layout.columns (drop row bytes))) }
    ensures further { IfOk result (λ seen. row < seen.end) }
    ensures within { IfOk result (λ seen. seen.end ≤ size) }
    ensures kept { IsKept (T.contents tree.new) subject.now near.new.start near.new.bytes.items }
    ensures refused { IfKnown (T.contents tree.old) (λ log. IfErr result (AsTheTreeSays log subject.now)) }
    ensures kinds { IfErr result IsReadError }
    ensures same { T.contents tree.new ≡ T.contents tree.old }
    ensures apart { is_output subject.now ≡ true → tree.new ≡ tree.old }
    ensures cause { HasCause (ViewError.Tree TreeError.Fault) (T.fault_count tree.old)
        (T.fault_count tree.new) result }
{
    let count = window_bytes(layout, size - row);
    let window = piece_near(alloc, tree, subject, near, row, count)?;
    let shown = window.as_slice();
    let text = row_text(alloc, layout, row, shown)?;
    let end = end_seen(alloc, tree, subject, layout, size, row, shown)?;
    Ok(SeenRow { text, end })
}

/// Where the row ends that begins at a place, of which these bytes say what it shows. They show the
/// end of a wrapped row too.
fn end_seen<T: ReadTree>(
    alloc: Global,
    tree: &mut T,
    subject: &Subject,
    layout: Layout,
    size: u64,
    row: u64,
    window: &[u8],
) -> Result<u64, ViewError>
    requires inside { row < size }
    requires small { size ≤ 2 ^ 63 }
    requires wide { 1 ≤ layout.columns }
    requires few { length window.now < 2 ^ 60 }
    requires window { IfHeld (T.contents tree.old) subject.now size (λ bytes.
        window.now ≡ take (window_of layout.shape layout.columns layout.left) (drop row bytes)) }
    ensures end { IfHeld (T.contents tree.old) subject.now size (λ bytes.
        IfOk result (λ end. end ≡ row + row_length layout.shape layout.columns (drop row bytes))) }
    ensures further { IfOk result (λ end. row < end) }
    ensures within { IfOk result (λ end. end ≤ size) }
    ensures refused { IfKnown (T.contents tree.old) (λ log. IfErr result (AsTheTreeSays log subject.now)) }
    ensures kinds { IfErr result IsReadError }
    ensures same { T.contents tree.new ≡ T.contents tree.old }
    ensures apart { is_output subject.now ≡ true → tree.new ≡ tree.old }
    ensures cause { HasCause (ViewError.Tree TreeError.Fault) (T.fault_count tree.old)
        (T.fault_count tree.new) result }
{
    match layout.shape {
        Shape::Wrapped => Ok(end_behind(
            row,
            wrapped_length(window, layout.columns as usize),
            size,
        )),
        _ => row_end(alloc, tree, subject, layout, size, row),
    }
}
