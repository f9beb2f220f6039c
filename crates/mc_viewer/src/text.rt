//! What a row shows.
ghost use Rattle.std.specs.Prelude.{◌≡◌, ◌+◌, ◌-◌, ◌*◌, ◌<◌, ◌≤◌, ◌++◌, ◌∷◌, [], ◌^◌};
ghost use Rattle.std.specs.Prelude.{length, drop, take, min, replicate, string_bytes, IfOk};
ghost use Rattle.mc_viewer.specs.Pages.{line_in_sight, row_text};
ghost use Rattle.mc_viewer.specs.Windows.{window_of};

use crate::layout::{Layout, Shape};
use crate::rows::wrapped_length;
use crate::units::{front, push_piece, rest_from, unit_columns, unit_length};
use mc_text::{NoMemory, Text};
use std::alloc::Global;
use text_units::{Sight, hex_row};

/// How many bytes from a row's start on show what the row shows, where so many are left. A character has
/// four bytes at most and a column at least.
pub fn window_bytes(layout: Layout, left: u64) -> usize
    ensures { result ≡ min left (window_of layout.shape layout.columns layout.left) }
{
    let columns = layout.columns as u64;
    let window = match layout.shape {
        Shape::Wrapped => 4 * columns + 9,
        Shape::Unwrapped => 4 * (layout.left as u64 + columns) + 9,
        Shape::Hex => 16,
    };
    left.min(window) as usize
}

/// What the row shows that begins with these bytes.
#[tactic(auto, unfolding(crate::specs::Pages::row_text))]
pub fn row_text(alloc: Global, layout: Layout, at: u64, bytes: &[u8]) -> Result<Text, NoMemory>
    requires { length bytes.now < 2 ^ 60 }
    ensures { IfOk result (λ text. text ≡ row_text layout.shape layout.columns layout.left at bytes.now) }
{
    let columns = layout.columns as usize;
    let left = layout.left as usize;
    match layout.shape {
        Shape::Wrapped => {
            let row = front(bytes, wrapped_length(bytes, columns));
            line_in_sight(alloc, row, 0, columns)
        }
        Shape::Unwrapped => line_in_sight(alloc, bytes, left, left + columns),
        Shape::Hex => hex_row(alloc, columns, at, front(bytes, 16)),
    }
}

/// What is in sight of a line, up to its newline, from one column up to another.
fn line_in_sight(alloc: Global, bytes: &[u8], left: usize, right: usize) -> Result<Text, NoMemory>
    requires small { length bytes.now < 2 ^ 60 }
    requires narrow { right < 2 ^ 60 }
    ensures { IfOk result (λ text. text ≡ line_in_sight left right 0 0 bytes.now) }
{
    let mut row = String::new(alloc);
    let mut at = 0;
    let mut column = 0;
    while at < bytes.len() {
        if bytes[at] == b'\n' {
            return Ok(Text(row));
        }
        let rest = rest_from(bytes, at);
        let length = unit_length(rest);
        let unit = front(rest, length);
        push_piece(&mut row, Sight { left, right }, column, unit)?;
        column += unit_columns(column, unit);
        at += length;
    }
    Ok(Text(row))
}
