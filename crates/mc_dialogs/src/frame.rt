//! A box painted over a screen.
ghost use Rattle.std.specs.Prelude.{◌≡◌, ◌+◌, ◌<◌, ◌^◌, length, string_bytes, IfOk, OnOk};
ghost use Rattle.key_screen.specs.declared.cells.Attr.TheVariants.{Plain};
ghost use Rattle.mc_dialogs.specs.Boxes.{with_line, with_lines, with_box, edge, columns_inside, middle};

use key_screen::{Attr, Grid};
use mc_text::{NoMemory, Text, drawn, fit};
use std::alloc::{AllocError, Global};
use std::convert::AsStr;

/// A line of a box.
#[derive(Debug, Drop)]
pub struct Line {
    pub text: Text,
    pub attr: Attr,
}

/// Where a box stands: its first row and column, counted from 1, and the columns inside it.
#[derive(Clone, Copy, Debug)]
pub struct Place {
    pub row: usize,
    pub column: usize,
    pub inside: usize,
}

/// Paints a box with these lines in the middle of a screen. Where memory is wanting, a part of it may stand.
pub fn paint_box(grid: &mut Grid, alloc: Global, lines: &[Line]) -> Result<(), NoMemory>
    requires { length lines.now < 2 ^ 48 }
    ensures { OnOk result (grid.new ≡ with_box grid.old lines.now) }
{
    let columns = usize::from(grid.columns());
    let inside = columns_in_box(columns);
    let row = middle_of(usize::from(grid.lines()), lines.len() + 2);
    let column = middle_of(columns, inside + 4);
    let edge = edge_of(alloc, inside)?;
    grid.write_at(alloc, row, column, edge.as_str(), Attr::Plain)?;
    write_lines(
        grid,
        alloc,
        Place {
            row: row + 1,
            column,
            inside,
        },
        lines,
    )?;
    grid.write_at(
        alloc,
        row + 1 + lines.len(),
        column,
        edge.as_str(),
        Attr::Plain,
    )
}

/// The columns inside a box on a screen of so many.
pub fn columns_in_box(columns: usize) -> usize
    ensures value { result ≡ columns_inside columns }
    ensures bound { result < 61 }
{
    columns.saturating_sub(4).min(60)
}

/// The first of `part` rows or columns in the middle of `whole` ones, counted from 1.
pub fn middle_of(whole: usize, part: usize) -> usize
    requires { whole < 2 ^ 16 }
    ensures value { result ≡ middle whole part }
    ensures bound { result < 2 ^ 16 }
{
    whole.saturating_sub(part) / 2 + 1
}

/// The first and the last line of a box.
fn edge_of(alloc: Global, inside: usize) -> Result<String, AllocError>
    requires { inside < 2 ^ 16 }
    ensures { IfOk result (λ line. string_bytes line ≡ edge inside) }
{
    let mut line = String::from_str(alloc, "+")?;
    for _ in 0..inside + 2 {
        line.push('-')?;
    }
    line.push('+')?;
    Ok(line)
}

/// Writes the lines of a box, the first one at this place.
fn write_lines(grid: &mut Grid, alloc: Global, place: Place, lines: &[Line]) -> Result<(), NoMemory>
    requires row { place.row < 2 ^ 17 }
    requires column { place.column < 2 ^ 17 }
    requires inside { place.inside < 2 ^ 17 }
    requires count { length lines.now < 2 ^ 48 }
    ensures { OnOk result (grid.new ≡ with_lines grid.old place.row place.column place.inside lines.now) }
{
    for (index, line) in lines.iter().enumerate() {
        let here = Place {
            row: place.row + index,
            ..place
        };
        write_line(grid, alloc, here, line)?;
    }
    Ok(())
}

/// Writes a line of a box.
fn write_line(grid: &mut Grid, alloc: Global, place: Place, line: &Line) -> Result<(), NoMemory>
    requires column { place.column < 2 ^ 17 }
    requires inside { place.inside < 2 ^ 17 }
    ensures { OnOk result (grid.new ≡ with_line grid.old place.row place.column place.inside line.now) }
{
    let shown = drawn(alloc, line.text.as_str())?;
    let text = fit(alloc, shown.as_str(), place.inside)?;
    let column = place.column + 2;
    grid.write_at(alloc, place.row, place.column, "| ", Attr::Plain)?;
    grid.write_at(alloc, place.row, column, text.as_str(), line.attr)?;
    grid.write_at(alloc, place.row, column + place.inside, " |", Attr::Plain)
}
