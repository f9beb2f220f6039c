//! The field of an input line, painted in its box.
ghost use Rattle.std.specs.Prelude.{◌≡◌, ◌+◌, ◌<◌, ◌^◌, length, string_bytes, IfOk, OnOk};
ghost use Rattle.mc_dialogs.specs.Boxes.{columns_inside, middle};
ghost use Rattle.mc_dialogs.specs.InputField.{shown_before, with_field, with_input, input_lines};

use crate::clusters::{first_clusters, later_clusters, left_out};
use crate::frame::{Line, Place, columns_in_box, middle_of, paint_box};
use key_screen::{Attr, Grid};
use mc_text::{NoMemory, Text, columns_of, drawn, fit};
use std::alloc::Global;
use std::convert::AsStr;

/// Paints a box with this title and the field of a text on both sides of the cursor.
pub fn paint_field_box(
    grid: &mut Grid,
    alloc: Global,
    title: &Text,
    before: &str,
    behind: &str,
) -> Result<(), NoMemory>
    ensures { OnOk result (grid.new
        ≡ with_input grid.old (record { title = title.now; before = before.now; behind = behind.now })) }
{
    let place = place_of_field(grid);
    let lines = box_lines(alloc, title)?;
    paint_box(grid, alloc, &lines)?;
    write_field(grid, alloc, place, before, behind)
}

/// Where the field stands on a screen.
fn place_of_field(grid: &Grid) -> Place
    ensures row { result.row ≡ middle grid.now.lines 4 + 2 }
    ensures column { result.column ≡ middle grid.now.columns (columns_inside grid.now.columns + 4) + 2 }
    ensures inside { result.inside ≡ columns_inside grid.now.columns }
    ensures column_bound { result.column < 2 ^ 17 }
    ensures inside_bound { result.inside < 2 ^ 17 }
{
    let columns = usize::from(grid.columns());
    let inside = columns_in_box(columns);
    Place {
        row: middle_of(usize::from(grid.lines()), 4) + 2,
        column: middle_of(columns, inside + 4) + 2,
        inside,
    }
}

/// The lines of the box: the title, and an empty one for the field.
fn box_lines(alloc: Global, title: &Text) -> Result<Vec<Line>, NoMemory>
    ensures value { IfOk result (λ lines. lines.items ≡ input_lines title.now) }
    ensures count { IfOk result (λ lines. length lines.items ≡ 2) }
{
    let named = Line {
        text: title.copy(alloc)?,
        attr: Attr::Plain,
    };
    let empty = Line {
        text: Text::from_str(alloc, "")?,
        attr: Attr::Plain,
    };
    Ok(Vec::from_array(alloc, [named, empty])?)
}

/// Writes the field from a cell on.
fn write_field(
    grid: &mut Grid,
    alloc: Global,
    place: Place,
    before: &str,
    behind: &str,
) -> Result<(), NoMemory>
    requires column { place.column < 2 ^ 17 }
    requires inside { place.inside < 2 ^ 17 }
    ensures { OnOk result
        (grid.new ≡ with_field grid.old place.row place.column place.inside before.now behind.now) }
{
    let start = start_of(alloc, before, place.inside)?;
    let room = place.inside.saturating_sub(columns_of(start.as_str()));
    let shown = drawn(alloc, behind)?;
    let end = fit(alloc, shown.as_str(), room)?;
    let mark = first_clusters(alloc, end.as_str(), 1)?;
    let (row, cursor) = (place.row, place.column + (place.inside - room));
    grid.write_at(alloc, row, place.column, start.as_str(), Attr::Plain)?;
    grid.write_at(alloc, row, cursor, end.as_str(), Attr::Plain)?;
    grid.write_at(alloc, row, cursor, mark.as_str(), Attr::Reverse)
}

/// What the field shows before the cursor.
fn start_of(alloc: Global, before: &str, inside: usize) -> Result<String, NoMemory>
    ensures { IfOk result (λ start. string_bytes start ≡ shown_before before.now inside) }
{
    let text = drawn(alloc, before)?;
    let count = left_out(text.as_str(), inside.saturating_sub(1));
    Ok(later_clusters(alloc, text.as_str(), count)?)
}
