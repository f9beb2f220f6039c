//! How wide the columns of a format are, and a row cut to its panel.
ghost use Rattle.std.specs.Prelude.{◌≡◌, ◌-◌, ◌<◌, ◌≤◌, None, IfOk, IfSome};
ghost use Rattle.panel_listing.specs.Layouts.{usual_width, width_of, taken_columns, open_ones};
ghost use Rattle.panel_listing.specs.Layouts.{share, cell_at, cells_in, clipped_text};

use crate::format::{Column, Field};
use mc_text::{NoMemory, Text, push_blanks, push_run};
use std::alloc::Global;

/// A column with its width.
#[derive(Clone, Copy, Debug, Drop)]
pub struct Cell {
    pub field: Field,
    pub width: usize,
}

/// The columns of a row that is so wide. Names that tell no width share what the others
/// leave; each gets at least 1.
#[tactic(auto, unfolding(crate::specs::Layouts::cells_in))]
pub fn cells_in(alloc: Global, row: usize, columns: &[Column]) -> Result<Vec<Cell>, NoMemory>
    ensures { IfOk result (λ cells. cells.items ≡ cells_in row columns.now) }
{
    let left = left_by(row, columns);
    let count = open_ones(columns);
    let mut cells = Vec::new(alloc);
    let mut place = 0;
    let mut rest = columns;
    while let Some((column, more)) = rest.split_first() {
        cells.push(cell_at(left, count, place, *column))?;
        if width_of(*column).is_none() {
            place += 1;
        }
        rest = more;
    }
    Ok(cells)
}

/// A column, before which so many share what is left.
fn cell_at(left: usize, count: usize, place: usize, column: Column) -> Cell
    requires { width_of column ≡ None → place < count }
    ensures { result ≡ cell_at left count place column.field (width_of column) }
{
    let width = match width_of(column) {
        Some(width) => width,
        None => share(left, count, place),
    };
    Cell {
        field: column.field,
        width,
    }
}

/// What the columns that have a width leave of a row.
fn left_by(row: usize, columns: &[Column]) -> usize
    ensures { result ≡ row - taken_columns columns.now }
{
    let mut left = row;
    let mut rest = columns;
    while let Some((column, more)) = rest.split_first() {
        left = left.saturating_sub(width_of(*column).unwrap_or(0));
        rest = more;
    }
    left
}

/// How many columns have no width.
fn open_ones(columns: &[Column]) -> usize
    ensures { result ≡ open_ones columns.now }
{
    let mut count = 0;
    let mut rest = columns;
    while let Some((column, more)) = rest.split_first() {
        if width_of(*column).is_none() {
            count += 1;
        }
        rest = more;
    }
    count
}

/// The part of one of those that share what is left.
fn share(left: usize, count: usize, place: usize) -> usize
    requires { place < count }
    ensures { result ≡ share left count place }
{
    let extra = if place < left % count { 1 } else { 0 };
    (left / count + extra).max(1)
}

/// The width of a column, where it has one.
fn width_of(column: Column) -> Option<usize>
    ensures value { result ≡ width_of column }
    ensures small { IfSome result (λ width. width ≤ 255) }
{
    match column.width {
        Some(width) => Some(width as usize),
        None => usual_width(column.field),
    }
}

/// The width of a field that tells none.
fn usual_width(field: Field) -> Option<usize>
    ensures value { result ≡ usual_width field }
    ensures small { IfSome result (λ width. width ≤ 255) }
{
    match field {
        Field::Name => None,
        Field::Size | Field::FileSize => Some(7),
        Field::Mtime => Some(12),
        Field::Permissions => Some(10),
        Field::TypeLetter | Field::Mark | Field::Space | Field::Bar => Some(1),
    }
}

/// A text in exactly so many columns: cut between clusters, or filled with blanks.
#[tactic(auto, unfolding(crate::specs::Layouts::clipped_text))]
pub fn clipped(alloc: Global, text: &str, columns: usize) -> Result<Text, NoMemory>
    ensures { IfOk result (λ line. line ≡ clipped_text text.now columns) }
{
    let mut line = String::new(alloc);
    let used = push_run(&mut line, text, columns)?;
    push_blanks(&mut line, columns - used)?;
    Ok(Text(line))
}
