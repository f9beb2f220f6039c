//! The frame of a page: of the viewer, and of the editor.
ghost use Rattle.std.specs.Prelude.{◌≡◌, ◌+◌, ◌-◌, ◌<◌, ◌≤◌, ◌^◌, [], ◌∷◌};
ghost use Rattle.std.specs.Prelude.{◌++◌, length, take, OnOk, OnErr, IfOk};
ghost use Rattle.screen_frame.specs.Pieces.{painted_grid};
ghost use Rattle.screen_frame.specs.Pages.{run_pieces, row_pieces, page_pieces, page_frame};

use crate::key_bar::{KeyBar, bar_text};
use crate::writing::write_line;
use key_screen::{Attr, Grid};
use mc_text::{NoMemory, Text};
use std::alloc::Global;
use std::convert::AsStr;
use std::marker::Model;

/// A text in a row of a page, from a column on, counted from 1.
#[derive(Drop)]
pub struct Run {
    pub column: u16,
    pub text: Text,
    pub look: Attr,
}

/// A row of a page: its runs, of which a later one covers those before it.
#[derive(Drop)]
pub struct PageRow(pub Vec<Run>);

impl Model for PageRow {
    ghost use Rattle.std.specs.Prelude.{List};
    ghost use Rattle.screen_frame.specs.declared.page.Run.{Run};

    ghost Value = { List Run };

    ghost view = { λ l. l.0.items };
}

impl PageRow {
    /// The runs.
    fn as_slice(&self) -> &[Run]
        ensures { result.now ≡ self.now }
    {
        self.0.as_slice()
    }
}

/// The rows of a page, from the first one that is shown.
#[derive(Drop)]
pub struct PageRows(pub Vec<PageRow>);

impl Model for PageRows {
    ghost use Rattle.std.specs.Prelude.{List};
    ghost use Rattle.screen_frame.specs.declared.page.Run.{Run};

    ghost Value = { List (List Run) };

    ghost view = { λ l. l.0.items };
}

impl PageRows {
    /// The rows.
    fn as_slice(&self) -> &[PageRow]
        ensures { result.now ≡ self.now }
    {
        self.0.as_slice()
    }
}

/// What the viewer or the editor shows.
#[derive(Drop)]
pub struct Page {
    /// The path or the command.
    pub title: Text,
    pub rows: PageRows,
    pub bar: KeyBar,
}

/// A screen of so many lines and columns that shows a page. It takes time linear in
/// the cells and in the texts.
#[tactic(auto, unfolding(crate::specs::Pages::page_frame))]
pub fn paint_page(alloc: Global, lines: u16, columns: u16, page: &Page) -> Result<Grid, NoMemory>
    ensures frame { IfOk result (λ grid. grid ≡ page_frame lines columns page.now) }
    ensures size { IfOk result (λ grid. (grid.lines ≡ lines) × (grid.columns ≡ columns)) }
{
    let mut grid = Grid::blank(alloc, lines, columns)?;
    write_page(&mut grid, alloc, lines, columns, page)?;
    Ok(grid)
}

/// Writes all of a page.
#[tactic(auto, using(crate::proofs::Painted::written_page))]
fn write_page(
    grid: &mut Grid,
    alloc: Global,
    lines: u16,
    columns: u16,
    page: &Page,
) -> Result<(), NoMemory>
    ensures { OnOk result (grid.new ≡ painted_grid grid.old (page_pieces lines columns page.now)) }
{
    let rows = first_rows(page.rows.as_slice(), lines.saturating_sub(2));
    let keys = bar_text(alloc, page.bar)?;
    write_line(grid, alloc, 1, columns, page.title.as_str(), Attr::Reverse)?;
    write_rows(grid, alloc, rows)?;
    write_line(grid, alloc, lines, columns, keys.as_str(), Attr::Plain)
}

/// The first rows, so many at most.
fn first_rows(rows: &[PageRow], count: u16) -> &[PageRow]
    ensures value { result.now ≡ take count rows.now }
    ensures bound { length result.now ≤ count }
{
    let (first, _) = rows.split_at(usize::from(count).min(rows.len()));
    first
}

/// Writes rows, from the second row of the screen on.
#[tactic(auto, using(crate::proofs::Painted::painted_append))]
fn write_rows(grid: &mut Grid, alloc: Global, rows: &[PageRow]) -> Result<(), NoMemory>
    requires { length rows.now < 2 ^ 16 }
    ensures { OnOk result (grid.new ≡ painted_grid grid.old (row_pieces 2 rows.now)) }
{
    let mut row = 2;
    for runs in rows {
        write_runs(grid, alloc, row, runs.as_slice())?;
        row += 1;
    }
    Ok(())
}

/// Writes the runs of a row.
fn write_runs(grid: &mut Grid, alloc: Global, row: usize, runs: &[Run]) -> Result<(), NoMemory>
    ensures { OnOk result (grid.new ≡ painted_grid grid.old (run_pieces row runs.now)) }
{
    for run in runs {
        let column = usize::from(run.column);
        grid.write_at(alloc, row, column, run.text.as_str(), run.look)?;
    }
    Ok(())
}
