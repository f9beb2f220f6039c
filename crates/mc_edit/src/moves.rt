//! Where a point goes: by a unit, by a line, by a page.
ghost use Rattle.std.specs.Prelude.{◌≡◌, ◌*◌, ◌≤◌, ◌<◌, ◌^◌, length, IfOk};
ghost use Rattle.mc_edit.specs.Moves.{right_of, left_of, up_of, down_of, column_at, place_at, repeated_move};

use crate::columns::{column_of, end_after, place_in_column, start_before};
use crate::lines::{line_end, line_start, slice_of};
use gap_text::GapText;
use mc_text::NoMemory;
use std::alloc::Global;

/// One unit on, where the newline is a unit too; at the text's end it stays.
pub fn right_of(alloc: Global, text: &GapText, at: usize) -> Result<usize, NoMemory>
    requires { at ≤ length text.now.bytes }
    ensures value { IfOk result (λ to. to ≡ right_of text.now.bytes at) }
    ensures low { IfOk result (λ to. at ≤ to) }
    ensures high { IfOk result (λ to. to ≤ length text.now.bytes) }
{
    let end = line_end(text, at);
    if at == end {
        return Ok(if at < text.len() { at + 1 } else { at });
    }
    let start = line_start(text, at);
    let line = text.range(alloc, start, end)?;
    Ok(start + end_after(slice_of(&line), at - start))
}

/// One unit back; at the text's start it stays.
pub fn left_of(alloc: Global, text: &GapText, at: usize) -> Result<usize, NoMemory>
    requires { at ≤ length text.now.bytes }
    ensures value { IfOk result (λ to. to ≡ left_of text.now.bytes at) }
    ensures low { IfOk result (λ to. to ≤ at) }
{
    let start = line_start(text, at);
    if at == start {
        return Ok(at.saturating_sub(1));
    }
    let line = text.range(alloc, start, line_end(text, at))?;
    Ok(start + start_before(slice_of(&line), at - start))
}

/// The line above, in the column of the place; in the first line it stays.
pub fn up_of(alloc: Global, text: &GapText, at: usize) -> Result<usize, NoMemory>
    requires within { at ≤ length text.now.bytes }
    requires small { length text.now.bytes < 2 ^ 60 }
    ensures value { IfOk result (λ to. to ≡ up_of text.now.bytes at) }
    ensures high { IfOk result (λ to. to ≤ length text.now.bytes) }
{
    let start = line_start(text, at);
    if start == 0 {
        return Ok(at);
    }
    let column = column_at(alloc, text, at)?;
    place_at(alloc, text, start - 1, column)
}

/// The line below, in the column of the place; in the last line it stays.
pub fn down_of(alloc: Global, text: &GapText, at: usize) -> Result<usize, NoMemory>
    requires within { at ≤ length text.now.bytes }
    requires small { length text.now.bytes < 2 ^ 60 }
    ensures value { IfOk result (λ to. to ≡ down_of text.now.bytes at) }
    ensures high { IfOk result (λ to. to ≤ length text.now.bytes) }
{
    let end = line_end(text, at);
    if end == text.len() {
        return Ok(at);
    }
    let column = column_at(alloc, text, at)?;
    place_at(alloc, text, end + 1, column)
}

/// The column of a place in its line.
pub fn column_at(alloc: Global, text: &GapText, at: usize) -> Result<usize, NoMemory>
    requires within { at ≤ length text.now.bytes }
    requires small { length text.now.bytes < 2 ^ 60 }
    ensures value { IfOk result (λ column. column ≡ column_at text.now.bytes at) }
    ensures bound { IfOk result (λ column. column ≤ 8 * length text.now.bytes) }
{
    let start = line_start(text, at);
    let line = text.range(alloc, start, line_end(text, at))?;
    Ok(column_of(slice_of(&line), at - start))
}

/// The place in that column of the line that holds `within`.
fn place_at(alloc: Global, text: &GapText, within: usize, column: usize) -> Result<usize, NoMemory>
    requires within { within ≤ length text.now.bytes }
    requires small { length text.now.bytes < 2 ^ 60 }
    ensures value { IfOk result (λ to. to ≡ place_at text.now.bytes within column) }
    ensures high { IfOk result (λ to. to ≤ length text.now.bytes) }
{
    let start = line_start(text, within);
    let line = text.range(alloc, start, line_end(text, within))?;
    Ok(start + place_in_column(slice_of(&line), column))
}

/// So many lines up.
pub fn page_up(alloc: Global, text: &GapText, at: usize, count: u16) -> Result<usize, NoMemory>
    requires within { at ≤ length text.now.bytes }
    requires small { length text.now.bytes < 2 ^ 60 }
    ensures value { IfOk result (λ to. to ≡ repeated_move (up_of text.now.bytes) count at) }
    ensures high { IfOk result (λ to. to ≤ length text.now.bytes) }
{
    let mut to = at;
    for _ in 0..count {
        to = up_of(alloc, text, to)?;
    }
    Ok(to)
}

/// So many lines down.
pub fn page_down(alloc: Global, text: &GapText, at: usize, count: u16) -> Result<usize, NoMemory>
    requires within { at ≤ length text.now.bytes }
    requires small { length text.now.bytes < 2 ^ 60 }
    ensures value { IfOk result (λ to. to ≡ repeated_move (down_of text.now.bytes) count at) }
    ensures high { IfOk result (λ to. to ≤ length text.now.bytes) }
{
    let mut to = at;
    for _ in 0..count {
        to = down_of(alloc, text, to)?;
    }
    Ok(to)
}
