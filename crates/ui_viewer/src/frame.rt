//! The frame while a file is viewed.
ghost use Rattle.std.specs.Prelude.{◌≡◌, ◌<◌, ◌^◌, length, map, IfOk, OnOk};
ghost use Rattle.mc_dialogs.specs.Boxes.{with_box};
ghost use Rattle.mc_dialogs.specs.InputField.{with_input};
ghost use Rattle.mc_dialogs.specs.QuestionKeys.{plain_lines as plain_lines_of};
ghost use Rattle.ui_viewer.specs.ViewerFrames.{frame_of, page_row as row_of};
ghost use Rattle.ui_viewer.specs.ViewerFrames.{page_with, with_asking, with_message};

use crate::asking::Asking;
use crate::message::message_lines;
use crate::mode::ViewerMode;
use key_screen::{Attr, Grid};
use mc_dialogs::{InputLine, paint_box, plain_lines};
use mc_text::{NoMemory, Rows, Text};
use mc_viewer::ViewError;
use screen_frame::{KeyBar, Page, PageRow, PageRows, Run, paint_page};
use std::alloc::Global;
use ui_words::columns_in_box;

impl ViewerMode {
    /// The frame of a screen of so many lines and columns. It reads no tree, and takes the time of the
    /// cells and texts on the screen.
    #[tactic(auto, unfolding(crate::specs::ViewerFrames::frame_of))]
    pub fn frame(&self, alloc: Global, lines: u16, columns: u16) -> Result<Grid, NoMemory>
        ensures frame { IfOk result (λ grid. grid ≡ frame_of lines columns self.now) }
        ensures size { IfOk result (λ grid. (grid.lines ≡ lines) × (grid.columns ≡ columns)) }
    {
        let page = shown_page(alloc, self.title(), self.rows())?;
        let mut grid = paint_page(alloc, lines, columns, &page)?;
        paint_asking(&mut grid, alloc, self.asking())?;
        paint_message(&mut grid, alloc, self.title(), self.refused())?;
        Ok(grid)
    }
}

/// The page that is shown: its title, the rows as they were read last, and the keys of the viewer.
fn shown_page(alloc: Global, title: &Text, rows: &Rows) -> Result<Page, NoMemory>
    ensures { IfOk result (λ page. page ≡ page_with title.now rows.now) }
{
    let title = title.copy(alloc)?;
    let rows = page_rows(alloc, rows.as_slice())?;
    Ok(Page {
        title,
        rows,
        bar: KeyBar::Viewer,
    })
}

/// The rows of a page, each from the first column on.
fn page_rows(alloc: Global, texts: &[Text]) -> Result<PageRows, NoMemory>
    ensures { IfOk result (λ rows. rows ≡ map row_of texts.now) }
{
    let mut rows = Vec::new(alloc);
    for text in texts {
        rows.push(page_row(alloc, text)?)?;
    }
    Ok(PageRows(rows))
}

fn page_row(alloc: Global, text: &Text) -> Result<PageRow, NoMemory>
    ensures { IfOk result (λ row. row ≡ row_of text.now) }
{
    let mut runs = Vec::new(alloc);
    runs.push(Run {
        column: 1,
        text: text.copy(alloc)?,
        look: Attr::Plain,
    })?;
    Ok(PageRow(runs))
}

/// Paints the line that asks over the page.
fn paint_asking(grid: &mut Grid, alloc: Global, asking: &Option<Asking>) -> Result<(), NoMemory>
    ensures over { OnOk result (grid.new ≡ with_asking asking.now grid.old) }
    ensures size { OnOk result ((grid.new.lines ≡ grid.old.lines) × (grid.new.columns ≡ grid.old.columns)) }
{
    match asking {
        None => Ok(()),
        Some(asking) => paint_line(grid, alloc, &asking.line),
    }
}

/// Paints an input line.
fn paint_line(grid: &mut Grid, alloc: Global, line: &InputLine) -> Result<(), NoMemory>
    ensures field { OnOk result (grid.new ≡ with_input grid.old line.now) }
    ensures size { OnOk result ((grid.new.lines ≡ grid.old.lines) × (grid.new.columns ≡ grid.old.columns)) }
{
    line.paint(alloc, grid)?;
    Ok(())
}

/// Paints the message over all.
fn paint_message(
    grid: &mut Grid,
    alloc: Global,
    title: &Text,
    refused: &Option<ViewError>,
) -> Result<(), NoMemory>
    ensures over { OnOk result (grid.new ≡ with_message title.now refused.now grid.old) }
    ensures size { OnOk result ((grid.new.lines ≡ grid.old.lines) × (grid.new.columns ≡ grid.old.columns)) }
{
    match refused {
        None => Ok(()),
        Some(why) => {
            let lines = message_lines(alloc, columns_in_box(grid), title, *why)?;
            paint_lines(grid, alloc, lines)
        }
    }
}

/// Paints a box of plain lines.
fn paint_lines(grid: &mut Grid, alloc: Global, lines: Rows) -> Result<(), NoMemory>
    requires { length lines < 2 ^ 48 }
    ensures painted { OnOk result (grid.new ≡ with_box grid.old (plain_lines_of lines)) }
    ensures size { OnOk result ((grid.new.lines ≡ grid.old.lines) × (grid.new.columns ≡ grid.old.columns)) }
{
    let lines = plain_lines(alloc, lines.as_slice())?;
    paint_box(grid, alloc, &lines)?;
    Ok(())
}
