//! A screen of cells.
ghost use Rattle.std.specs.Prelude.{◌≡◌, ◌↔◌, ◌<◌, ◌≤◌, ◌+◌, ◌-◌, ◌*◌, ◌++◌, length, map};
ghost use Rattle.std.specs.Prelude.{replicate, string_bytes, true, IsTrue, IfOk, OnOk, OnErr};
ghost use Rattle.unicode_segmentation.specs.Grapheme.{graphemes};
ghost use Rattle.key_screen.specs.Cells.{blank_cell};
ghost use Rattle.key_screen.specs.DrawnText.{drawn_glyph, glyph_columns, put_glyph, put_glyphs};
ghost use Rattle.key_screen.specs.Grids.{blank_grid, cells_text, glyph_text, row_cells};
ghost use Rattle.key_screen.specs.Grids.{grid_with_text, written_at, IsOnGrid};
ghost use Rattle.key_screen.specs.Layout.{IsLaidOut};

use crate::cells::{Attr, Cell, Glyph, are_same, put_one, put_two};
use crate::drawn::{columns_of_glyph, drawn};
use mc_text::{NoMemory, Text};
use std::alloc::{AllocError, Global};
use std::marker::Model;
use thiserror::Error;

/// Why bytes give no grid.
#[derive(Clone, Copy, Debug, Drop, Error, PartialEq, Eq)]
pub enum GridError {
    /// The position of the first byte that a terminal doesn't read.
    #[error("byte {0} isn't read")]
    BadByte(usize),
    #[error("out of memory")]
    Memory,
}

/// A screen of cells. Contracts see it as the list of its cells, row by row.
#[derive(Debug, Drop)]
pub struct Grid {
    lines: u16,
    columns: u16,
    cells: Vec<Cell>,
}

impl Model for Grid {
    ghost use Rattle.std.specs.Prelude.{◌≡◌, ◌*◌, ◌<◌, ◌^◌, length};
    ghost use Rattle.key_screen.specs.Grids.{CellGrid};
    ghost use Rattle.key_screen.specs.Layout.{IsLaidOut};

    ghost Value = { CellGrid };

    ghost view = { λ g. record { lines = g.lines; columns = g.columns; cells = g.cells.items } };

    ghost invariant = { λ g. (length g.cells.items ≡ g.lines * g.columns) × (g.lines < 2 ^ 16)
        × (g.columns < 2 ^ 16) × IsLaidOut g.columns g.cells.items };
}

impl Grid {
    /// All cells blank and plain.
    pub fn blank(alloc: Global, lines: u16, columns: u16) -> Result<Grid, NoMemory>
        ensures { IfOk result (λ grid. grid ≡ blank_grid lines columns) }
    {
        let cells = blank_cells(alloc, usize::from(lines) * usize::from(columns))?;
        Ok(Grid {
            lines,
            columns,
            cells,
        })
    }

    /// A screen of these cells, row by row, of which each wide cluster has its right half behind it.
    pub fn of_cells(lines: u16, columns: u16, cells: Vec<Cell>) -> Grid
        requires size { length cells.items ≡ lines * columns }
        requires laid_out { IsLaidOut columns cells.items }
        ensures { result ≡ record { lines = lines; columns = columns; cells = cells.items } }
    {
        Grid {
            lines,
            columns,
            cells,
        }
    }

    /// How many lines it has.
    pub fn lines(&self) -> u16
        ensures { result ≡ self.now.lines }
    {
        self.lines
    }

    /// How many columns it has.
    pub fn columns(&self) -> u16
        ensures { result ≡ self.now.columns }
    {
        self.columns
    }

    /// Its cells, row by row. A right half stands directly behind each wide cluster, in the
    /// same row, and nowhere else.
    pub fn cells(&self) -> &[Cell]
        ensures value { result.now ≡ self.now.cells }
        ensures size { length self.now.cells ≡ self.now.lines * self.now.columns }
        ensures laid_out { IsLaidOut self.now.columns self.now.cells }
    {
        &self.cells
    }

    /// Writes a text from a cell on, counted from 1, in one row. What passes the last column is dropped.
    pub fn write(
        &mut self,
        alloc: Global,
        row: u16,
        column: u16,
        text: &str,
        attr: Attr,
    ) -> Result<(), NoMemory>
        requires { IsOnGrid self.old row column }
        ensures done { OnOk result (self.new ≡ grid_with_text self.old row column text.now attr) }
        ensures refused { OnErr result (self.new ≡ self.old) }
    {
        let room = usize::from(self.columns) - usize::from(column - 1);
        let at = usize::from(row - 1) * usize::from(self.columns) + usize::from(column - 1);
        write_cells(&mut self.cells, alloc, at, room, text, attr)
    }

    /// Writes a text from a cell on, counted from 1, where that lies on the screen.
    #[tactic(auto, unfolding(crate::specs::Grids::written_at))]
    pub fn write_at(
        &mut self,
        alloc: Global,
        row: usize,
        column: usize,
        text: &str,
        attr: Attr,
    ) -> Result<(), NoMemory>
        ensures done { OnOk result (self.new ≡ written_at self.old row column text.now attr) }
        ensures refused { OnErr result (self.new ≡ self.old) }
    {
        let lines = usize::from(self.lines);
        let columns = usize::from(self.columns);
        if 1 <= row && row <= lines && 1 <= column && column <= columns {
            return self.write(alloc, row as u16, column as u16, text, attr);
        }
        Ok(())
    }

    /// The text of a row, counted from 1: a blank for each blank cell, and each cluster once.
    pub fn row_text(&self, alloc: Global, row: u16) -> Result<Text, NoMemory>
        requires from { 1 ≤ row }
        requires to { row ≤ self.now.lines }
        ensures { IfOk result (λ text. text ≡ cells_text (row_cells self.now row)) }
    {
        let columns = usize::from(self.columns);
        let (_, from) = self.cells.split_at(usize::from(row - 1) * columns);
        let (cells, _) = from.split_at(columns);
        text_of(alloc, cells)
    }

    /// Whether another screen has the same size and the same cells.
    pub fn same(&self, other: &Grid) -> bool
        ensures { IsTrue result ↔ (self.now ≡ other.now) }
    {
        self.lines == other.lines
            && self.columns == other.columns
            && are_same(self.cells.as_slice(), other.cells.as_slice())
    }
}

/// The text that cells show.
fn text_of(alloc: Global, cells: &[Cell]) -> Result<Text, NoMemory>
    ensures { IfOk result (λ text. text ≡ cells_text cells.now) }
{
    let mut text = String::new(alloc);
    for cell in cells {
        push_glyph(&mut text, &cell.glyph)?;
    }
    Ok(Text(text))
}

/// Adds the text of a glyph.
fn push_glyph(text: &mut String, glyph: &Glyph) -> Result<(), NoMemory>
    ensures { OnOk result (string_bytes text.new ≡ string_bytes text.old ++ glyph_text glyph.now) }
{
    match glyph {
        Glyph::Blank => text.push(' ')?,
        Glyph::Cluster(cluster) => text.push_str(cluster.0.as_str())?,
        Glyph::RightHalf => {}
    }
    Ok(())
}

/// Blank and plain cells.
pub fn blank_cells(alloc: Global, count: usize) -> Result<Vec<Cell>, AllocError>
    ensures { IfOk result (λ cells. cells.items ≡ replicate count blank_cell) }
{
    let mut cells = Vec::new(alloc);
    for _ in 0..count {
        cells.push(Cell {
            glyph: Glyph::Blank,
            attr: Attr::Plain,
        })?;
    }
    Ok(cells)
}

/// Writes a text from a place on, as far as the row has room.
fn write_cells(
    cells: &mut [Cell],
    alloc: Global,
    at: usize,
    room: usize,
    text: &str,
    attr: Attr,
) -> Result<(), NoMemory>
    requires { at + room ≤ length cells.old }
    ensures done { OnOk result
        (cells.new ≡ put_glyphs cells.old at room (map drawn_glyph (graphemes true text.now)) attr) }
    ensures refused { OnErr result (cells.new ≡ cells.old) }
{
    let glyphs = drawn(alloc, text, room)?;
    put_all(cells, at, room, glyphs, attr);
    Ok(())
}

/// Puts glyphs from a place on, as far as the row has room.
fn put_all(cells: &mut [Cell], at: usize, room: usize, glyphs: Vec<Glyph>, attr: Attr)
    requires { at + room ≤ length cells.old }
    ensures { cells.new ≡ put_glyphs cells.old at room glyphs.items attr }
{
    let mut at = at;
    let mut room = room;
    for glyph in glyphs {
        let columns = columns_of_glyph(&glyph);
        if columns == 0 || columns > room {
            break;
        }
        put(cells, at, glyph, attr);
        at += columns;
        room -= columns;
    }
}

/// Puts a glyph into its cell or its two cells.
pub fn put(cells: &mut [Cell], at: usize, glyph: Glyph, attr: Attr)
    requires first { at < length cells.old }
    requires last { at + glyph_columns glyph ≤ length cells.old }
    ensures { cells.new ≡ put_glyph cells.old at glyph attr }
{
    if columns_of_glyph(&glyph) == 2 {
        put_two(cells, at, glyph, attr);
    } else {
        put_one(cells, at, glyph, attr);
    }
}
