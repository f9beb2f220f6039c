//! A pane, row by row.
ghost use Rattle.std.specs.Prelude.{◌≡◌, ◌+◌, ◌-◌, ◌/◌, ◌<◌, ◌^◌, [], ◌∷◌};
ghost use Rattle.std.specs.Prelude.{length, get_or, string_bytes, OnOk, IfOk};
ghost use Rattle.screen_frame.specs.Pieces.{painted_grid, text_at, edge};
ghost use Rattle.screen_frame.specs.Panes.{title_row, title_look, heading_row, item_row, item_rows};
ghost use Rattle.screen_frame.specs.Panes.{items_in_row, no_item, name_row, unnamed_text, pane_rows};

use crate::cutting::{cut, edge_of};
use crate::panes::{ListingLine, Pane, Shape};
use crate::writing::{Place, write_fitted, write_walled};
use key_screen::{Attr, Grid};
use mc_text::{NoMemory, Text, drawn};
use std::alloc::Global;
use std::convert::AsStr;

/// Where a pane stands: the column of its left wall, and the columns between its walls.
#[derive(Clone, Copy)]
struct Stand {
    column: u16,
    inside: u16,
}

/// Writes a pane of so many columns, from a column on.
#[tactic(auto, using(crate::proofs::Painted::painted_append))]
pub fn write_pane(
    grid: &mut Grid,
    alloc: Global,
    lines: u16,
    column: u16,
    width: u16,
    pane: &Pane,
) -> Result<(), NoMemory>
    ensures { OnOk result (grid.new ≡ painted_grid grid.old (pane_rows lines column width pane.now)) }
{
    let stand = Stand {
        column,
        inside: width.saturating_sub(2),
    };
    write_title(grid, alloc, stand, pane)?;
    write_heading(grid, alloc, stand, pane)?;
    write_items(grid, alloc, stand, lines.saturating_sub(6), pane)?;
    write_name(grid, alloc, stand, lines.saturating_sub(3), pane)?;
    write_end(grid, alloc, stand, lines.saturating_sub(2))
}

/// Writes its first line, with the title.
fn write_title(grid: &mut Grid, alloc: Global, stand: Stand, pane: &Pane) -> Result<(), NoMemory>
    ensures { OnOk result (grid.new ≡ painted_grid grid.old (title_row stand.column stand.inside pane.now)) }
{
    let look = look_of_title(pane);
    let column = usize::from(stand.column);
    let inside = usize::from(stand.inside);
    let edge = edge_of(alloc, inside)?;
    let shown = drawn(alloc, pane.title.as_str())?;
    let title = cut(alloc, shown.as_str(), inside)?;
    grid.write_at(alloc, 1, column, edge.as_str(), look)?;
    grid.write_at(alloc, 1, column + 1, title.as_str(), look)
}

/// How its first line looks.
fn look_of_title(pane: &Pane) -> Attr
    ensures { result ≡ title_look pane.now }
{
    if pane.is_current {
        Attr::Reverse
    } else {
        Attr::Plain
    }
}

/// Writes its heading, over each of its columns.
fn write_heading(grid: &mut Grid, alloc: Global, stand: Stand, pane: &Pane) -> Result<(), NoMemory>
    ensures { OnOk result
        (grid.new ≡ painted_grid grid.old (heading_row stand.column stand.inside pane.now)) }
{
    let heading = ListingLine {
        text: pane.heading.copy(alloc)?,
        look: Attr::Plain,
    };
    write_row(grid, alloc, stand, pane.shape, 2, &heading, &heading)
}

/// Writes its items, in rows of this height in all.
#[tactic(auto, using(crate::proofs::Painted::item_rows_next))]
fn write_items(
    grid: &mut Grid,
    alloc: Global,
    stand: Stand,
    height: u16,
    pane: &Pane,
) -> Result<(), NoMemory>
    ensures { OnOk result
        (grid.new ≡ painted_grid grid.old (item_rows stand.column stand.inside height pane.now height)) }
{
    for place in 0..height {
        write_items_at(grid, alloc, stand, height, pane, place)?;
    }
    Ok(())
}

/// Writes the row of items of this place.
fn write_items_at(
    grid: &mut Grid,
    alloc: Global,
    stand: Stand,
    height: u16,
    pane: &Pane,
    place: u16,
) -> Result<(), NoMemory>
    ensures { OnOk result
        (grid.new ≡ painted_grid grid.old (item_row stand.column stand.inside height pane.now place)) }
{
    let blank = ListingLine {
        text: Text::from_str(alloc, "")?,
        look: Attr::Plain,
    };
    let place = usize::from(place);
    let items = pane.items.as_slice();
    let first = item_at(items, place, &blank);
    let second = item_at(items, place + usize::from(height), &blank);
    write_row(grid, alloc, stand, pane.shape, 3 + place, first, second)
}

/// The item of a place, or the other one where there is none.
fn item_at<'a>(items: &'a [ListingLine], place: usize, other: &'a ListingLine) -> &'a ListingLine
    ensures { result.now ≡ get_or items.now place other.now }
{
    match items.get(place) {
        Some(item) => item,
        None => other,
    }
}

/// Writes a row of one item between walls, or of two.
fn write_row(
    grid: &mut Grid,
    alloc: Global,
    stand: Stand,
    shape: Shape,
    row: usize,
    first: &ListingLine,
    second: &ListingLine,
) -> Result<(), NoMemory>
    ensures { OnOk result (grid.new
        ≡ painted_grid grid.old (items_in_row shape row stand.column stand.inside first.now second.now)) }
{
    match shape {
        Shape::Full => {
            let whole = Place {
                row,
                column: usize::from(stand.column),
                room: usize::from(stand.inside),
            };
            write_walled(grid, alloc, whole, first.text.as_str(), first.look)
        }
        Shape::Brief => write_two(grid, alloc, stand, row, first, second),
    }
}

/// Writes two items between walls, of which they share the middle one.
fn write_two(
    grid: &mut Grid,
    alloc: Global,
    stand: Stand,
    row: usize,
    first: &ListingLine,
    second: &ListingLine,
) -> Result<(), NoMemory>
    ensures { OnOk result (grid.new ≡ painted_grid grid.old
        (items_in_row Shape.Brief row stand.column stand.inside first.now second.now)) }
{
    let column = usize::from(stand.column);
    let inside = usize::from(stand.inside).saturating_sub(1);
    let half = inside / 2;
    let left = Place {
        row,
        column,
        room: half,
    };
    let right = Place {
        row,
        column: column + 1 + half,
        room: inside - half,
    };
    write_walled(grid, alloc, left, first.text.as_str(), first.look)?;
    write_walled(grid, alloc, right, second.text.as_str(), second.look)
}

/// Writes the current name, and how many names can't be shown.
fn write_name(
    grid: &mut Grid,
    alloc: Global,
    stand: Stand,
    row: u16,
    pane: &Pane,
) -> Result<(), NoMemory>
    ensures { OnOk result
        (grid.new ≡ painted_grid grid.old (name_row row stand.column stand.inside pane.now)) }
{
    let row = usize::from(row);
    let column = usize::from(stand.column);
    let inside = usize::from(stand.inside);
    let unnamed = unnamed_text(alloc, pane.unnamed)?;
    let room = inside.saturating_sub(unnamed.as_str().len());
    let name = Place {
        row,
        column: column + 1,
        room,
    };
    let rest = Place {
        row,
        column: column + 1 + room,
        room: inside - room,
    };
    grid.write_at(alloc, row, column, "|", Attr::Plain)?;
    write_fitted(grid, alloc, name, pane.name.as_str(), Attr::Plain)?;
    write_fitted(grid, alloc, rest, unnamed.as_str(), Attr::Plain)?;
    grid.write_at(alloc, row, column + 1 + inside, "|", Attr::Plain)
}

/// What is said of so many names that can't be shown.
fn unnamed_text(alloc: Global, count: u64) -> Result<Text, NoMemory>
    ensures { IfOk result (λ text. text ≡ unnamed_text count) }
{
    if count == 0 {
        return Text::from_str(alloc, "");
    }
    Ok(Text(format!(in alloc; " {count} unnamed")?))
}

/// Writes its last line.
fn write_end(grid: &mut Grid, alloc: Global, stand: Stand, row: u16) -> Result<(), NoMemory>
    ensures { OnOk result
        (grid.new ≡ painted_grid grid.old (text_at row stand.column (edge stand.inside) Attr.Plain ∷ [])) }
{
    let edge = edge_of(alloc, usize::from(stand.inside))?;
    grid.write_at(
        alloc,
        usize::from(row),
        usize::from(stand.column),
        edge.as_str(),
        Attr::Plain,
    )
}
