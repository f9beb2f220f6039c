//! What a cell of the screen shows.
ghost use Rattle.std.specs.Prelude.{◌≡◌, ◌<◌, ◌≤◌, ◌+◌, ◌-◌, ◌*◌, length, slice_set, true, ◌↔◌, IsTrue};
ghost use Rattle.key_screen.specs.Cells.{freed_cells, left_freed, right_freed};
ghost use Rattle.key_screen.specs.Cells.{right_half_at, with_blank, put_narrow, put_wide};

use mc_text::Text;
use std::convert::AsStr;

/// How a cell looks.
#[derive(Clone, Copy, Debug, PartialEq, Eq)]
pub enum Attr {
    Plain,
    Bold,
    Reverse,
}

/// What a cell holds.
#[derive(Debug, Drop)]
pub enum Glyph {
    Blank,
    /// A cluster of width 1 or 2, other than a blank.
    Cluster(Text),
    /// The right half of the cluster in the cell before.
    RightHalf,
}

/// A cell.
#[derive(Debug, Drop)]
pub struct Cell {
    pub glyph: Glyph,
    pub attr: Attr,
}

/// Whether the right half of a wide cluster stands there.
fn is_right_half(cells: &[Cell], at: usize) -> bool
    ensures value { result ≡ right_half_at cells.now at }
    ensures within { result ≡ true → at < length cells.now }
{
    match cells.get(at) {
        Some(cell) => matches!(cell.glyph, Glyph::RightHalf),
        None => false,
    }
}

/// Makes a cell blank, and keeps how it looks.
fn blank(cells: &mut [Cell], at: usize)
    requires { at < length cells.old }
    ensures { cells.new ≡ with_blank cells.old at }
{
    cells[at].glyph = Glyph::Blank;
}

/// Makes the left half of a wide cluster blank, if its right half stands there.
fn free_left(cells: &mut [Cell], at: usize)
    requires { at < length cells.old }
    ensures { cells.new ≡ left_freed cells.old at }
{
    if is_right_half(cells, at) {
        blank(cells, at.saturating_sub(1));
    }
}

/// Makes the right half of a wide cluster blank, if it stands after that place.
fn free_right(cells: &mut [Cell], at: usize)
    requires { at < length cells.old }
    ensures { cells.new ≡ right_freed cells.old at }
{
    if is_right_half(cells, at + 1) {
        blank(cells, at + 1);
    }
}

/// Makes the other half of a wide cluster blank, where one half of it stands there.
fn free(cells: &mut [Cell], at: usize)
    requires { at < length cells.old }
    ensures { cells.new ≡ freed_cells cells.old at }
{
    free_left(cells, at);
    free_right(cells, at);
}

/// Puts a glyph of one column there.
pub fn put_one(cells: &mut [Cell], at: usize, glyph: Glyph, attr: Attr)
    requires { at < length cells.old }
    ensures { cells.new ≡ put_narrow cells.old at glyph attr }
{
    free(cells, at);
    cells[at] = Cell { glyph, attr };
}

/// Puts a glyph of two columns there and in the cell after it.
pub fn put_two(cells: &mut [Cell], at: usize, glyph: Glyph, attr: Attr)
    requires { at + 1 < length cells.old }
    ensures { cells.new ≡ put_wide cells.old at glyph attr }
{
    free(cells, at);
    free(cells, at + 1);
    cells[at] = Cell { glyph, attr };
    cells[at + 1] = Cell {
        glyph: Glyph::RightHalf,
        attr,
    };
}

/// Whether two lists have the same cells.
pub fn are_same(cells: &[Cell], others: &[Cell]) -> bool
    ensures { IsTrue result ↔ (cells.now ≡ others.now) }
{
    if cells.len() != others.len() {
        return false;
    }
    for i in 0..cells.len() {
        if !is_same(&cells[i], &others[i]) {
            return false;
        }
    }
    true
}

/// Whether two cells hold the same and look the same.
pub fn is_same(cell: &Cell, other: &Cell) -> bool
    ensures { IsTrue result ↔ (cell.now ≡ other.now) }
{
    cell.attr == other.attr && holds_same(&cell.glyph, &other.glyph)
}

/// Whether two cells hold the same.
fn holds_same(glyph: &Glyph, other: &Glyph) -> bool
    ensures { IsTrue result ↔ (glyph.now ≡ other.now) }
{
    match (glyph, other) {
        (Glyph::Blank, Glyph::Blank) | (Glyph::RightHalf, Glyph::RightHalf) => true,
        (Glyph::Cluster(text), Glyph::Cluster(other)) => text.as_str() == other.as_str(),
        _ => false,
    }
}
