//! Where each step leads.
ghost use Rattle.std.specs.Prelude.{◌≡◌, ◌-◌, ◌<◌, ◌≤◌, ◌^◌, length, IsOk, IfOk, IfErr, true};
ghost use Rattle.tree_trait.specs.Answers.{IfKnown, HasCause};
ghost use Rattle.mc_viewer.specs.Viewing.{held_bytes, IfHeld, IsReadError, AsTheTreeSays, is_output};
ghost use Rattle.mc_viewer.specs.Rows.{all_rows, IsRow, rows_down, rows_up};
ghost use Rattle.mc_viewer.specs.ViewerSteps.{after_step, NeedsNoLook};
ghost use Rattle.mc_viewer.specs.Ways.{start_byte, to_row};

use crate::above::row_above;
use crate::error::ViewError;
use crate::layout::Layout;
use crate::lines::line_behind;
use crate::near::nothing_near;
use crate::reading::size_of;
use crate::state::{
    State, ViewStep, layout_of, page_lines, to_left, to_right, with_hex_turned, with_top,
    with_wrap_turned,
};
use crate::subject::Subject;
use crate::walking::{row_below, row_holding};
use crate::way::{Start, Way};
use std::alloc::Global;
use tree_trait::{ReadTree, TreeError};

/// Where a step leads.
pub fn moved<T: ReadTree>(
    alloc: Global,
    tree: &mut T,
    subject: &Subject,
    state: State,
    step: ViewStep,
) -> Result<State, ViewError>
    requires wide { 1 ≤ state.columns }
    ensures shown { IfKnown (held_bytes (T.contents tree.old) subject.now) (λ bytes.
        IfOk result (λ new. new ≡ after_step bytes step state)) }
    ensures still { NeedsNoLook step → IsOk result × (tree.new ≡ tree.old) }
    ensures screen { IfOk result (λ new. (new.columns ≡ state.columns) × (new.lines ≡ state.lines)) }
    ensures refused { IfKnown (T.contents tree.old) (λ log. IfErr result (AsTheTreeSays log subject.now)) }
    ensures kinds { IfErr result IsReadError }
    ensures same { T.contents tree.new ≡ T.contents tree.old }
    ensures apart { is_output subject.now ≡ true → tree.new ≡ tree.old }
    ensures cause { HasCause (ViewError.Tree TreeError.Fault) (T.fault_count tree.old)
        (T.fault_count tree.new) result }
{
    let top = Start::Byte(state.top);
    let page = page_lines(state);
    match step {
        ViewStep::Down => to_row(alloc, tree, subject, state, top, Way::Down(1)),
        ViewStep::Up => to_row(alloc, tree, subject, state, top, Way::Up(1)),
        ViewStep::PageDown => to_row(alloc, tree, subject, state, top, Way::Down(page)),
        ViewStep::PageUp => to_row(alloc, tree, subject, state, top, Way::Up(page)),
        ViewStep::Home => Ok(with_top(state, 0)),
        ViewStep::End => {
            let above = page.saturating_sub(1);
            to_row(alloc, tree, subject, state, Start::End, Way::Up(above))
        }
        ViewStep::Left => Ok(to_left(state)),
        ViewStep::Right => Ok(to_right(state)),
        ViewStep::Line(line) => {
            let start = Start::Line(line.saturating_sub(1));
            to_row(alloc, tree, subject, state, start, Way::Nowhere)
        }
        ViewStep::Byte(byte) => {
            to_row(alloc, tree, subject, state, Start::Byte(byte), Way::Nowhere)
        }
        ViewStep::Wrap => {
            let turned = with_wrap_turned(state);
            to_row(alloc, tree, subject, turned, top, Way::Nowhere)
        }
        ViewStep::Hex => {
            let turned = with_hex_turned(state);
            to_row(alloc, tree, subject, turned, top, Way::Nowhere)
        }
    }
}

/// A row becomes the top: the one so far from that which holds a place.
fn to_row<T: ReadTree>(
    alloc: Global,
    tree: &mut T,
    subject: &Subject,
    state: State,
    start: Start,
    way: Way,
) -> Result<State, ViewError>
    requires wide { 1 ≤ state.columns }
    ensures shown { IfKnown (held_bytes (T.contents tree.old) subject.now) (λ bytes.
        IfOk result (λ new. new ≡ to_row bytes state start way)) }
    ensures screen { IfOk result (λ new. (new.columns ≡ state.columns) × (new.lines ≡ state.lines)) }
    ensures refused { IfKnown (T.contents tree.old) (λ log. IfErr result (AsTheTreeSays log subject.now)) }
    ensures kinds { IfErr result IsReadError }
    ensures same { T.contents tree.new ≡ T.contents tree.old }
    ensures apart { is_output subject.now ≡ true → tree.new ≡ tree.old }
    ensures cause { HasCause (ViewError.Tree TreeError.Fault) (T.fault_count tree.old)
        (T.fault_count tree.new) result }
{
    let size = size_of(alloc, tree, subject)?;
    let byte = start_byte(alloc, tree, subject, size, start)?;
    let layout = layout_of(state);
    let from = row_holding(alloc, tree, subject, layout, size, byte)?;
    match way {
        Way::Nowhere => Ok(with_top(state, from)),
        Way::Down(count) => {
            let row = rows_down(alloc, tree, subject, layout, size, from, count)?;
            Ok(with_top(state, row))
        }
        Way::Up(count) => {
            let row = rows_up(alloc, tree, subject, layout, size, from, count)?;
            Ok(with_top(state, row))
        }
    }
}

/// The byte at a place.
fn start_byte<T: ReadTree>(
    alloc: Global,
    tree: &mut T,
    subject: &Subject,
    size: u64,
    start: Start,
) -> Result<u64, ViewError>
    requires small { size ≤ 2 ^ 63 }
    ensures shown { IfHeld (T.contents tree.old) subject.now size (λ bytes.
        IfOk result (λ byte. byte ≡ start_byte bytes start)) }
    ensures refused { IfKnown (T.contents tree.old) (λ log. IfErr result (AsTheTreeSays log subject.now)) }
    ensures kinds { IfErr result IsReadError }
    ensures same { T.contents tree.new ≡ T.contents tree.old }
    ensures apart { is_output subject.now ≡ true → tree.new ≡ tree.old }
    ensures cause { HasCause (ViewError.Tree TreeError.Fault) (T.fault_count tree.old)
        (T.fault_count tree.new) result }
{
    match start {
        Start::Byte(byte) => Ok(byte),
        Start::Line(lines) => line_behind(alloc, tree, subject, size, lines),
        Start::End => Ok(size),
    }
}

/// So many rows down.
fn rows_down<T: ReadTree>(
    alloc: Global,
    tree: &mut T,
    subject: &Subject,
    layout: Layout,
    size: u64,
    from: u64,
    count: u16,
) -> Result<u64, ViewError>
    requires inside { from ≤ size - 1 }
    requires small { size ≤ 2 ^ 63 }
    requires wide { 1 ≤ layout.columns }
    ensures shown { IfHeld (T.contents tree.old) subject.now size (λ bytes.
        IsRow layout.shape layout.columns bytes from
        → IfOk result (λ row. row ≡ rows_down count (all_rows layout.shape layout.columns bytes) from)) }
    ensures refused { IfKnown (T.contents tree.old) (λ log. IfErr result (AsTheTreeSays log subject.now)) }
    ensures kinds { IfErr result IsReadError }
    ensures same { T.contents tree.new ≡ T.contents tree.old }
    ensures apart { is_output subject.now ≡ true → tree.new ≡ tree.old }
    ensures cause { HasCause (ViewError.Tree TreeError.Fault) (T.fault_count tree.old)
        (T.fault_count tree.new) result }
{
    let mut row = from;
    for _ in 0..count {
        row = row_below(alloc, tree, subject, layout, size, row)?;
    }
    Ok(row)
}

/// So many rows up. A piece is kept from row to row, so that the bytes of short lines are read once.
fn rows_up<T: ReadTree>(
    alloc: Global,
    tree: &mut T,
    subject: &Subject,
    layout: Layout,
    size: u64,
    from: u64,
    count: u16,
) -> Result<u64, ViewError>
    requires small { size ≤ 2 ^ 63 }
    requires wide { 1 ≤ layout.columns }
    ensures shown { IfHeld (T.contents tree.old) subject.now size (λ bytes.
        IfOk result (λ row. row ≡ rows_up count (all_rows layout.shape layout.columns bytes) from)) }
    ensures refused { IfKnown (T.contents tree.old) (λ log. IfErr result (AsTheTreeSays log subject.now)) }
    ensures kinds { IfErr result IsReadError }
    ensures same { T.contents tree.new ≡ T.contents tree.old }
    ensures apart { is_output subject.now ≡ true → tree.new ≡ tree.old }
    ensures cause { HasCause (ViewError.Tree TreeError.Fault) (T.fault_count tree.old)
        (T.fault_count tree.new) result }
{
    let mut near = nothing_near(alloc);
    let mut row = from;
    for _ in 0..count {
        row = row_above(alloc, tree, subject, layout, size, &mut near, row)?;
    }
    Ok(row)
}
