//! The cells in which a frame differs from the one that was drawn before.
ghost use Rattle.std.specs.Prelude.{◌≡◌, ◌<◌, All, length, slice_set, IfOk};
ghost use Rattle.screen_draw.specs.Changes.{is_same_attr, is_same_glyph, is_same_cell};
ghost use Rattle.screen_draw.specs.Changes.{is_due as is_due_of, changes_from, with_changes, IsWithin};

use key_screen::{Attr, Cell, Glyph};
use mc_text::NoMemory;
use std::alloc::Global;
use std::convert::AsStr;

/// A cell that takes the place of another: where it stands in the list of all, and the cell.
#[derive(Debug, Drop)]
pub struct Change {
    pub at: usize,
    pub cell: Cell,
}

/// The cells of a frame that are to be drawn: all of the first one, and then those that aren't as they
/// were. It copies these, and looks once at each cell.
pub fn changes_of(
    alloc: Global,
    has_drawn: bool,
    was: &[Cell],
    cells: &[Cell],
) -> Result<Vec<Change>, NoMemory>
    requires { length was.now ≡ length cells.now }
    ensures { IfOk result (λ changes. changes.items ≡ changes_from has_drawn 0 was.now cells.now) }
{
    let mut changes = Vec::new(alloc);
    for at in 0..cells.len() {
        if is_due(has_drawn, &was[at], &cells[at]) {
            changes.push(Change {
                at,
                cell: copy_of(alloc, &cells[at])?,
            })?;
        }
    }
    Ok(changes)
}

/// Puts the cells of changes into their places.
pub fn take_over(cells: &mut [Cell], changes: Vec<Change>)
    requires { All (IsWithin (length cells.old)) changes.items }
    ensures { cells.new ≡ with_changes cells.old changes.items }
{
    for change in changes {
        put_change(cells, change);
    }
}

/// Puts the cell of a change into its place.
fn put_change(cells: &mut [Cell], change: Change)
    requires { change.at < length cells.old }
    ensures { cells.new ≡ slice_set cells.old change.at change.cell }
{
    cells[change.at] = change.cell;
}

/// Whether a cell of the frame is to be drawn.
fn is_due(has_drawn: bool, was: &Cell, cell: &Cell) -> bool
    ensures { result ≡ is_due_of has_drawn was.now cell.now }
{
    !(has_drawn && is_same(was, cell))
}

/// Whether two cells hold the same and look the same.
fn is_same(cell: &Cell, other: &Cell) -> bool
    ensures { result ≡ is_same_cell cell.now other.now }
{
    looks_same(cell.attr, other.attr) && holds_same(&cell.glyph, &other.glyph)
}

/// Whether two looks are the same.
pub fn looks_same(attr: Attr, other: Attr) -> bool
    ensures { result ≡ is_same_attr attr other }
{
    matches!(
        (attr, other),
        (Attr::Plain, Attr::Plain) | (Attr::Bold, Attr::Bold) | (Attr::Reverse, Attr::Reverse)
    )
}

/// Whether two cells hold the same.
fn holds_same(glyph: &Glyph, other: &Glyph) -> bool
    ensures { result ≡ is_same_glyph glyph.now other.now }
{
    match (glyph, other) {
        (Glyph::Blank, Glyph::Blank) | (Glyph::RightHalf, Glyph::RightHalf) => true,
        (Glyph::Cluster(text), Glyph::Cluster(other)) => text.as_str() == other.as_str(),
        _ => false,
    }
}

/// The same cell once more.
fn copy_of(alloc: Global, cell: &Cell) -> Result<Cell, NoMemory>
    ensures { IfOk result (λ copy. copy ≡ cell.now) }
{
    Ok(Cell {
        glyph: glyph_copy(alloc, &cell.glyph)?,
        attr: cell.attr,
    })
}

/// The same glyph once more.
fn glyph_copy(alloc: Global, glyph: &Glyph) -> Result<Glyph, NoMemory>
    ensures { IfOk result (λ copy. copy ≡ glyph.now) }
{
    match glyph {
        Glyph::Blank => Ok(Glyph::Blank),
        Glyph::Cluster(text) => Ok(Glyph::Cluster(text.copy(alloc)?)),
        Glyph::RightHalf => Ok(Glyph::RightHalf),
    }
}
