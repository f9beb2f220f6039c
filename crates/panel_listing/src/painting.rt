//! The heading of a listing and its rows.
ghost use Rattle.std.specs.Prelude.{◌≡◌, ◌++◌, string_bytes, IfOk, OnOk, option_copied};
ghost use Rattle.mc_text.specs.Fit.{fitted_text};
ghost use Rattle.panel_listing.specs.RowTexts.{field_text, cells_text, labels_text, label};
ghost use Rattle.panel_listing.specs.RowTexts.{is_tagged, row_text, rows_text, heading_text};

use crate::format::Format;
use crate::item::Item;
use crate::layout::{Cell, cells_in, clipped};
use crate::listing::Listing;
use crate::telling::{field_text, label};
use mc_text::{NoMemory, Rows, Text, fit};
use std::alloc::Global;
use std::convert::AsStr;
use tagging::Tags;

/// Which rows of a listing are shown: so many from the first one on, in so many columns,
/// at this second since 1970.
#[derive(Clone, Copy, Debug)]
pub struct Window {
    pub columns: usize,
    pub first: usize,
    pub count: usize,
    pub now: u64,
}

/// What stands over the rows, in so many columns.
pub fn heading(alloc: Global, format: &Format, columns: usize) -> Result<Text, NoMemory>
    ensures { IfOk result (λ line. line ≡ heading_text format.now columns) }
{
    let cells = cells_in(alloc, columns, format.columns())?;
    let line = labels(alloc, cells.as_slice())?;
    clipped(alloc, line.as_str(), columns)
}

/// The rows that a window shows. The time grows as the number of these, and not with the listing.
pub fn rows(
    alloc: Global,
    listing: &Listing,
    tags: &Tags,
    format: &Format,
    window: Window,
) -> Result<Rows, NoMemory>
    ensures { IfOk result (λ rows. rows ≡ rows_text listing.now tags.now format.now window) }
{
    let cells = cells_in(alloc, window.columns, format.columns())?;
    let there = listing.len().saturating_sub(window.first);
    let mut rows = Rows::new(alloc);
    for row in 0..window.count.min(there) {
        let item = listing.item(window.first + row);
        rows.push(row_text(alloc, window, tags, cells.as_slice(), item)?)?;
    }
    Ok(rows)
}

/// The row of an item, or of `..`.
fn row_text(
    alloc: Global,
    window: Window,
    tags: &Tags,
    cells: &[Cell],
    item: Option<&Item>,
) -> Result<Text, NoMemory>
    ensures { IfOk result (λ line. line ≡ row_text window tags.now cells.now (option_copied item.entry)) }
{
    let line = cells_text(alloc, window.now, is_tagged(tags, item), item, cells)?;
    clipped(alloc, line.as_str(), window.columns)
}

/// Whether an item is tagged. `..` never is.
fn is_tagged(tags: &Tags, item: Option<&Item>) -> bool
    ensures { result ≡ is_tagged tags.now (option_copied item.entry) }
{
    match item {
        None => false,
        Some(item) => tags.has(item.name.text()),
    }
}

/// The cells of a row, side by side.
fn cells_text(
    alloc: Global,
    now: u64,
    tagged: bool,
    item: Option<&Item>,
    cells: &[Cell],
) -> Result<Text, NoMemory>
    ensures { IfOk result (λ line. line ≡ cells_text now tagged (option_copied item.entry) cells.now) }
{
    let mut line = String::new(alloc);
    let mut rest = cells;
    while let Some((cell, more)) = rest.split_first() {
        let text = field_text(alloc, *cell, now, tagged, item)?;
        push_fitted(alloc, &mut line, text.as_str(), cell.width)?;
        rest = more;
    }
    Ok(Text(line))
}

/// The labels of columns, side by side.
fn labels(alloc: Global, cells: &[Cell]) -> Result<Text, NoMemory>
    ensures { IfOk result (λ line. line ≡ labels_text cells.now) }
{
    let mut line = String::new(alloc);
    let mut rest = cells;
    while let Some((cell, more)) = rest.split_first() {
        push_fitted(alloc, &mut line, label(cell.field), cell.width)?;
        rest = more;
    }
    Ok(Text(line))
}

/// Puts a text behind a line, filled or cut to so many columns.
fn push_fitted(alloc: Global, line: &mut String, text: &str, width: usize) -> Result<(), NoMemory>
    ensures { OnOk result (string_bytes line.new ≡ string_bytes line.old ++ fitted_text text.now width) }
{
    line.push_str(fit(alloc, text, width)?.as_str())?;
    Ok(())
}
