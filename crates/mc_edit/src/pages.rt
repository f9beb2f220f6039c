//! What is shown of a text.
ghost use Rattle.std.specs.Prelude.{◌≡◌, ◌≤◌, ◌<◌, ◌^◌, length, IfOk};
ghost use Rattle.mc_edit.specs.Units.{units};
ghost use Rattle.mc_edit.specs.Lines.{line_start};
ghost use Rattle.mc_edit.specs.Pages.{row_of_units, row_at, rows_from, top_of, lines_above};

use crate::lines::{line_end, line_start, slice_of};
use crate::units::units_of;
use gap_text::GapText;
use mc_text::{NoMemory, Rows, Text};
use std::alloc::Global;
use text_units::{Sight, push_piece, unit_columns};

/// The rows of at most so many lines, from the one that begins at a place.
pub fn rows_from(
    alloc: Global,
    text: &GapText,
    sight: Sight,
    lines: usize,
    at: usize,
) -> Result<Rows, NoMemory>
    requires within { at ≤ length text.now.bytes }
    requires small { length text.now.bytes < 2 ^ 40 }
    requires narrow { sight.right < 2 ^ 60 }
    ensures { IfOk result (λ rows. rows
        ≡ rows_from text.now.bytes sight.left sight.right lines at) }
{
    let mut rows = Rows::new(alloc);
    let mut at = at;
    for _ in 0..lines {
        rows.push(row_at(alloc, text, sight, at)?)?;
        let end = line_end(text, at);
        if end == text.len() {
            break;
        }
        at = end + 1;
    }
    Ok(rows)
}

/// The row of the line that holds a place.
fn row_at(alloc: Global, text: &GapText, sight: Sight, at: usize) -> Result<Text, NoMemory>
    requires within { at ≤ length text.now.bytes }
    requires small { length text.now.bytes < 2 ^ 40 }
    requires narrow { sight.right < 2 ^ 60 }
    ensures { IfOk result (λ row. row ≡ row_at text.now.bytes sight.left sight.right at) }
{
    let line = text.range(alloc, line_start(text, at), line_end(text, at))?;
    row_of(alloc, slice_of(&line), sight)
}

/// What is in sight of a line.
fn row_of(alloc: Global, line: &[u8], sight: Sight) -> Result<Text, NoMemory>
    requires small { length line.now < 2 ^ 40 }
    requires narrow { sight.right < 2 ^ 60 }
    ensures { IfOk result (λ row. row ≡ row_of_units sight.left sight.right 0 (units line.now)) }
{
    let mut row = String::new(alloc);
    let mut column = 0;
    for unit in units_of(line) {
        push_piece(&mut row, sight, column, unit)?;
        column += unit_columns(column, unit);
    }
    Ok(Text(row))
}

/// The first line of a page, and the row of a place on it.
#[derive(Clone, Copy)]
pub struct Top {
    pub start: usize,
    pub above: u16,
}

/// The line that stands so many lines above the one of a place, or the first one.
pub fn top_of(text: &GapText, lines: u16, at: usize) -> Top
    requires { at ≤ length text.now.bytes }
    ensures start { result.start ≡ top_of text.now.bytes lines at }
    ensures above { result.above ≡ lines_above text.now.bytes lines at }
    ensures within { result.start ≤ length text.now.bytes }
{
    let mut place = at;
    let mut above = 0;
    for _ in 0..lines {
        let start = line_start(text, place);
        if start == 0 {
            break;
        }
        place = start - 1;
        above += 1;
    }
    Top {
        start: line_start(text, place),
        above,
    }
}
