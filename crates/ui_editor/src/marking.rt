//! The block and the point on a page.
ghost use Rattle.std.specs.Prelude.{◌≡◌, ◌*◌, ◌<◌, ◌≤◌, ◌^◌, [], length, get_or, IfOk, OnOk};
ghost use Rattle.mc_text.specs.Fit.{cluster_columns};
ghost use Rattle.ui_editor.specs.EditorFrames.{or_blank as blank_or, shown_within as seen_within};
ghost use Rattle.ui_editor.specs.EditorFrames.{with_block, with_marked, with_point};

use key_screen::{Attr, Grid};
use mc_edit::MarkedColumns;
use mc_text::{NoMemory, Text};
use std::alloc::Global;
use std::convert::AsStr;
use unicode_segmentation::UnicodeSegmentation;
use unicode_width::UnicodeWidthStr;

/// Writes what a block has of each row, in bold.
pub fn write_block(
    grid: &mut Grid,
    alloc: Global,
    rows: &[Text],
    marked: &[MarkedColumns],
) -> Result<(), NoMemory>
    ensures { OnOk result (grid.new ≡ with_block 0 rows.now marked.now grid.old) }
{
    let _count = rows.len();
    let mut row = 0;
    let mut rows = rows;
    let mut marked = marked;
    while let Some((text, later_rows)) = rows.split_first() {
        let Some((columns, more)) = marked.split_first() else {
            break;
        };
        write_marked(grid, alloc, row, text, *columns)?;
        row += 1;
        rows = later_rows;
        marked = more;
    }
    Ok(())
}

/// Writes what a block has of a row, in bold.
fn write_marked(
    grid: &mut Grid,
    alloc: Global,
    row: usize,
    text: &Text,
    marked: MarkedColumns,
) -> Result<(), NoMemory>
    requires { row < 2 ^ 63 }
    ensures { OnOk result (grid.new ≡ with_marked row text.now marked grid.old) }
{
    let from = usize::from(marked.from);
    let shown = shown_within(alloc, text.as_str(), from, usize::from(marked.to))?;
    grid.write_at(alloc, row + 2, from + 1, shown.as_str(), Attr::Bold)
}

/// Writes the cell at the point, in reverse.
pub fn write_point(
    grid: &mut Grid,
    alloc: Global,
    rows: &[Text],
    row: u16,
    column: u16,
) -> Result<(), NoMemory>
    ensures { OnOk result (grid.new ≡ with_point row column (get_or rows.now row []) grid.old) }
{
    let row = usize::from(row);
    let column = usize::from(column);
    let shown = shown_within(alloc, text_at(rows, row), column, column + 1)?;
    grid.write_at(alloc, row + 2, column + 1, or_blank(&shown), Attr::Reverse)
}

/// The text of a row, where there is one.
fn text_at(rows: &[Text], row: usize) -> &str
    ensures { result.now ≡ get_or rows.now row [] }
{
    match rows.get(row) {
        Some(text) => text.as_str(),
        None => "",
    }
}

/// A text, or a blank where there is nothing.
fn or_blank(text: &Text) -> &str
    ensures { result.now ≡ blank_or text.now }
{
    if text.as_str().is_empty() {
        return " ";
    }
    text.as_str()
}

/// What of a text begins in the columns from one up to another.
fn shown_within(alloc: Global, text: &str, from: usize, to: usize) -> Result<Text, NoMemory>
    ensures { IfOk result (λ shown. shown ≡ seen_within from to text.now) }
{
    let mut shown = String::new(alloc);
    let mut column = 0;
    for cluster in text.graphemes(true) {
        if from <= column && column < to {
            shown.push_str(cluster)?;
        }
        column += columns_of_cluster(cluster);
    }
    Ok(Text(shown))
}

/// The columns of one cluster.
#[tactic(auto, unfolding(mc_text::specs::Fit::cluster_columns))]
fn columns_of_cluster(cluster: &str) -> usize
    ensures value { result ≡ cluster_columns cluster.now }
    ensures bound { result ≤ 2 * length cluster.now }
{
    cluster.width()
}
