//! Where a viewer stands.
ghost use Rattle.std.specs.Prelude.{◌≡◌, ◌+◌, ◌-◌, ◌^◌, min, not, ◌&&◌};
ghost use Rattle.mc_viewer.specs.ViewerSteps.{shape_of, layout_of, page_lines};
ghost use Rattle.mc_viewer.specs.ViewerSteps.{moves_sideways, to_left, to_right};

use crate::layout::{Layout, Shape};

/// A step of a viewer.
#[derive(Clone, Copy, Debug, Drop, PartialEq, Eq)]
pub enum ViewStep {
    Down,
    Up,
    PageDown,
    PageUp,
    Home,
    End,
    Left,
    Right,
    Line(u64),
    Byte(u64),
    Wrap,
    Hex,
}

/// Where a viewer stands: the screen's lines and columns, how its rows are cut, the first column in sight
/// of lines that aren't wrapped, and the byte that names the top.
#[derive(Clone, Copy, Debug, Drop)]
pub struct State {
    pub lines: u16,
    pub columns: u16,
    pub wraps: bool,
    pub is_hex: bool,
    pub left: u32,
    pub top: u64,
}

/// The shape of the rows.
pub fn shape_of(state: State) -> Shape
    ensures { result ≡ shape_of state }
{
    if state.is_hex {
        return Shape::Hex;
    }
    if state.wraps {
        return Shape::Wrapped;
    }
    Shape::Unwrapped
}

pub fn layout_of(state: State) -> Layout
    ensures { result ≡ layout_of state }
{
    Layout {
        shape: shape_of(state),
        columns: state.columns,
        left: state.left,
    }
}

/// The rows of a page: the screen's lines but for two.
pub fn page_lines(state: State) -> u16
    ensures { result ≡ page_lines state }
{
    state.lines.saturating_sub(2)
}

/// The same with another top.
pub fn with_top(state: State, top: u64) -> State
    ensures { result ≡ record state { top = top } }
{
    State { top, ..state }
}

/// The same with lines wrapped where they weren't, and not where they were.
pub fn with_wrap_turned(state: State) -> State
    ensures { result ≡ record state { wraps = not state.wraps } }
{
    State {
        wraps: !state.wraps,
        ..state
    }
}

/// The same in hexadecimal where it was text, and as text where it was not.
pub fn with_hex_turned(state: State) -> State
    ensures { result ≡ record state { is_hex = not state.is_hex } }
{
    State {
        is_hex: !state.is_hex,
        ..state
    }
}

/// Ten columns to the left.
pub fn to_left(state: State) -> State
    ensures { result ≡ to_left state }
{
    if !moves_sideways(state) {
        return state;
    }
    State {
        left: state.left.saturating_sub(10),
        ..state
    }
}

/// Ten columns to the right.
pub fn to_right(state: State) -> State
    ensures { result ≡ to_right state }
{
    if !moves_sideways(state) {
        return state;
    }
    State {
        left: state.left.saturating_add(10),
        ..state
    }
}

fn moves_sideways(state: State) -> bool
    ensures { result ≡ moves_sideways state }
{
    !state.is_hex && !state.wraps
}
