//! Texts written on a screen, from a cell on.
ghost use Rattle.std.specs.Prelude.{◌≡◌, ◌+◌, ◌<◌, ◌^◌, [], ◌∷◌, OnOk};
ghost use Rattle.key_screen.specs.declared.cells.Attr.TheVariants.{Plain};
ghost use Rattle.screen_frame.specs.Pieces.{painted_grid, fitted_at, walled_pieces};

use key_screen::{Attr, Grid};
use mc_text::{NoMemory, drawn, fit};
use std::alloc::Global;
use std::convert::AsStr;

/// A text's row and its first column, both counted from 1, and the columns that it takes.
#[derive(Clone, Copy)]
pub struct Place {
    pub row: usize,
    pub column: usize,
    pub room: usize,
}

/// Writes a text as it is drawn, fitted to its place.
pub fn write_fitted(
    grid: &mut Grid,
    alloc: Global,
    place: Place,
    text: &str,
    look: Attr,
) -> Result<(), NoMemory>
    ensures { OnOk result
        (grid.new ≡ painted_grid grid.old (fitted_at place.row place.column place.room text.now look ∷ [])) }
{
    let shown = drawn(alloc, text)?;
    let line = fit(alloc, shown.as_str(), place.room)?;
    grid.write_at(alloc, place.row, place.column, line.as_str(), look)
}

/// Writes a text between walls, of which the left one stands in the first column of the place, and the text
/// in the columns behind it.
pub fn write_walled(
    grid: &mut Grid,
    alloc: Global,
    place: Place,
    text: &str,
    look: Attr,
) -> Result<(), NoMemory>
    requires column { place.column < 2 ^ 18 }
    requires room { place.room < 2 ^ 18 }
    ensures { OnOk result (grid.new ≡ painted_grid grid.old
        (walled_pieces place.row place.column place.room (record { text = text.now; look = look }))) }
{
    let inside = Place {
        row: place.row,
        column: place.column + 1,
        room: place.room,
    };
    let end = inside.column + place.room;
    grid.write_at(alloc, place.row, place.column, "|", Attr::Plain)?;
    write_fitted(grid, alloc, inside, text, look)?;
    grid.write_at(alloc, place.row, end, "|", Attr::Plain)
}

/// Writes a text over a whole row.
pub fn write_line(
    grid: &mut Grid,
    alloc: Global,
    row: u16,
    columns: u16,
    text: &str,
    look: Attr,
) -> Result<(), NoMemory>
    ensures { OnOk result (grid.new ≡ painted_grid grid.old (fitted_at row 1 columns text.now look ∷ [])) }
{
    let place = Place {
        row: usize::from(row),
        column: 1,
        room: usize::from(columns),
    };
    write_fitted(grid, alloc, place, text, look)
}
