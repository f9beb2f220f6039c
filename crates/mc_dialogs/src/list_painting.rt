//! How a list is painted: its title, and the rows that have room.
ghost use Rattle.std.specs.Prelude.{◌≡◌, ◌+◌, ◌++◌, ◌==◌, ◌<◌, ◌≤◌, ◌^◌};
ghost use Rattle.std.specs.Prelude.{if◌then◌else◌, length, take, drop, OnOk};
ghost use Rattle.mc_dialogs.specs.Boxes.{with_box};
ghost use Rattle.mc_dialogs.specs.ListKeys.{rows_shown, titled_rows};

use crate::frame::{Line, paint_box};
use key_screen::{Attr, Grid};
use mc_text::{NoMemory, Text};
use std::alloc::Global;

/// Paints a box with a title and some rows of a list, of which the first has this position there. The
/// current row is in reverse. Where memory is wanting, a part of it may stand.
pub fn paint_list(
    grid: &mut Grid,
    alloc: Global,
    title: &str,
    rows: &[Text],
    first: usize,
    current: usize,
) -> Result<(), NoMemory>
    requires first { first < 2 ^ 60 }
    requires count { length rows.now < 2 ^ 16 }
    ensures { OnOk result (grid.new ≡ with_box grid.old (titled_rows title.now first current rows.now)) }
{
    let mut lines = Vec::new(alloc);
    lines.push(Line {
        text: Text::from_str(alloc, title)?,
        attr: Attr::Plain,
    })?;
    push_rows(&mut lines, alloc, rows, first, current)?;
    paint_box(grid, alloc, &lines)
}

/// At most so many rows of a list, from a position on.
pub fn rows_from<A>(rows: &[A], first: usize, page: usize) -> &[A]
    ensures value { result.now ≡ take page (drop first rows.now) }
    ensures bound { length result.now ≤ page }
{
    let (_, rest) = rows.split_at(first.min(rows.len()));
    let (shown, _) = rest.split_at(page.min(rest.len()));
    shown
}

/// Adds the lines of some rows, of which the first has this position.
fn push_rows(
    lines: &mut Vec<Line>,
    alloc: Global,
    rows: &[Text],
    first: usize,
    current: usize,
) -> Result<(), NoMemory>
    requires { first < 2 ^ 60 }
    ensures lines { OnOk result (lines.new.items ≡ lines.old.items ++ rows_shown first current rows.now) }
    ensures count { OnOk result (length lines.new.items ≡ length lines.old.items + length rows.now) }
{
    for (index, row) in rows.iter().enumerate() {
        lines.push(Line {
            text: row.copy(alloc)?,
            attr: look_of(first + index, current),
        })?;
    }
    Ok(())
}

/// How a row looks.
fn look_of(position: usize, current: usize) -> Attr
    ensures { result ≡ (if position == current then Attr.Reverse else Attr.Plain) }
{
    if position == current {
        Attr::Reverse
    } else {
        Attr::Plain
    }
}
