//! Which columns of a page a block has.
ghost use Rattle.std.specs.Prelude.{◌≡◌, ◌-◌, ◌≤◌, ◌<◌, ◌^◌, length, IfOk};
ghost use Rattle.mc_edit.specs.Marked.{marked_in_line, marked_lines, seen_column};

use crate::lines::{line_end, line_start};
use crate::moves::column_at;
use gap_text::GapText;
use mc_text::NoMemory;
use std::alloc::Global;
use text_units::Sight;

/// The columns of a row that a block has: from one up to another, counted from 0. Where
/// these are one it has none.
#[derive(Clone, Copy, Debug, PartialEq, Eq)]
pub struct MarkedColumns {
    pub from: u16,
    pub to: u16,
}

/// Where a block begins and ends.
#[derive(Clone, Copy)]
pub struct Span {
    pub start: usize,
    pub end: usize,
}

/// The columns that a block has in each of at most so many lines, from the one that begins at a place.
pub fn marked_lines(
    alloc: Global,
    text: &GapText,
    sight: Sight,
    span: Span,
    lines: usize,
    at: usize,
) -> Result<Vec<MarkedColumns>, NoMemory>
    requires within { at ≤ length text.now.bytes }
    requires small { length text.now.bytes < 2 ^ 40 }
    requires ordered { sight.left ≤ sight.right }
    requires narrow { sight.right - sight.left < 2 ^ 16 }
    ensures { IfOk result (λ marked. marked.items
        ≡ marked_lines text.now.bytes sight.left sight.right span.start span.end lines at) }
{
    let mut marked = Vec::new(alloc);
    let mut at = at;
    for _ in 0..lines {
        marked.push(marked_in_line(alloc, text, sight, span, at)?)?;
        let end = line_end(text, at);
        if end == text.len() {
            break;
        }
        at = end + 1;
    }
    Ok(marked)
}

/// The columns that a block has in the line that holds a place.
fn marked_in_line(
    alloc: Global,
    text: &GapText,
    sight: Sight,
    span: Span,
    at: usize,
) -> Result<MarkedColumns, NoMemory>
    requires within { at ≤ length text.now.bytes }
    requires small { length text.now.bytes < 2 ^ 40 }
    requires ordered { sight.left ≤ sight.right }
    requires narrow { sight.right - sight.left < 2 ^ 16 }
    ensures { IfOk result (λ marked. marked
        ≡ marked_in_line text.now.bytes sight.left sight.right span.start span.end at) }
{
    let from = seen_column(alloc, text, sight, at, span.start)?;
    let to = seen_column(alloc, text, sight, at, span.end)?;
    Ok(MarkedColumns { from, to })
}

/// The column of a place, or of the end of a line on that side of it, as far as that is in sight.
fn seen_column(
    alloc: Global,
    text: &GapText,
    sight: Sight,
    at: usize,
    place: usize,
) -> Result<u16, NoMemory>
    requires within { at ≤ length text.now.bytes }
    requires small { length text.now.bytes < 2 ^ 40 }
    requires ordered { sight.left ≤ sight.right }
    requires narrow { sight.right - sight.left < 2 ^ 16 }
    ensures { IfOk result (λ column. column ≡ seen_column text.now.bytes sight.left sight.right at place) }
{
    let within = place.max(line_start(text, at)).min(line_end(text, at));
    let column = column_at(alloc, text, within)?;
    Ok((column.max(sight.left).min(sight.right) - sight.left) as u16)
}
