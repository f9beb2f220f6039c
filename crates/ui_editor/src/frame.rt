//! The frame while a file is edited.
ghost use Rattle.std.specs.Prelude.{◌≡◌, ◌∷◌, [], ◌<◌, ◌≤◌, ◌^◌, length, map, max, IfOk, OnOk};
ghost use Rattle.mc_dialogs.specs.Boxes.{with_box};
ghost use Rattle.mc_dialogs.specs.InputField.{with_input};
ghost use Rattle.mc_dialogs.specs.QuestionKeys.{plain_lines as plain_lines_of};
ghost use Rattle.mc_edit.specs.Pages.{page_rows as rows_of_text};
ghost use Rattle.ui_editor.specs.EditorFrames.{frame_of, page_row as row_of, page_with};
ghost use Rattle.ui_editor.specs.EditorFrames.{text_frame, with_asking, with_message, with_text};

use crate::asking::Asking;
use crate::leaving::leaving_lines;
use crate::marking::{write_block, write_point};
use crate::message::message_lines;
use crate::mode::EditorMode;
use key_screen::{Attr, Grid};
use mc_dialogs::{InputLine, paint_box, plain_lines};
use mc_edit::{EditError, Editor};
use mc_text::{NoMemory, Rows, Text};
use screen_frame::{KeyBar, Page, PageRow, PageRows, Run, paint_page};
use std::alloc::Global;

impl EditorMode {
    /// The frame of a screen of so many lines and columns. It takes the time of the cells and texts on the
    /// screen, and of the lines of the text that are shown.
    #[tactic(auto, unfolding(crate::specs::EditorFrames::frame_of))]
    pub fn frame(&self, alloc: Global, lines: u16, columns: u16) -> Result<Grid, NoMemory>
        ensures frame { IfOk result (λ grid. grid ≡ frame_of lines columns self.now) }
        ensures size { IfOk result (λ grid. (grid.lines ≡ lines) × (grid.columns ≡ columns)) }
    {
        let mut grid = paint_text(alloc, lines, columns, self.title(), self.editor())?;
        paint_asking(&mut grid, alloc, self.asking())?;
        paint_message(&mut grid, alloc, self.refused())?;
        Ok(grid)
    }
}

/// The text on a screen, with its block and its point.
fn paint_text(
    alloc: Global,
    lines: u16,
    columns: u16,
    title: &Text,
    editor: &Editor,
) -> Result<Grid, NoMemory>
    ensures frame { IfOk result (λ grid. grid ≡ text_frame lines columns title.now editor.now) }
    ensures size { IfOk result (λ grid. (grid.lines ≡ lines) × (grid.columns ≡ columns)) }
{
    let view = editor.view(alloc, lines.max(3), columns.max(1))?;
    let page = shown_page(alloc, title, &view.rows)?;
    let mut grid = paint_page(alloc, lines, columns, &page)?;
    let marked = editor.marked_columns(alloc, lines.max(3), columns.max(1))?;
    write_block(&mut grid, alloc, view.rows.as_slice(), marked.as_slice())?;
    write_point(
        &mut grid,
        alloc,
        view.rows.as_slice(),
        view.row,
        view.column,
    )?;
    Ok(grid)
}

/// The page that is shown: its title, the rows of the text, and the keys of the editor.
fn shown_page(alloc: Global, title: &Text, rows: &Rows) -> Result<Page, NoMemory>
    ensures { IfOk result (λ page. page ≡ page_with title.now rows.now) }
{
    let title = title.copy(alloc)?;
    let rows = page_rows(alloc, rows.as_slice())?;
    Ok(Page {
        title,
        rows,
        bar: KeyBar::Editor,
    })
}

/// The rows of a page, each from the first column on.
fn page_rows(alloc: Global, texts: &[Text]) -> Result<PageRows, NoMemory>
    ensures { IfOk result (λ rows. rows ≡ map row_of texts.now) }
{
    let mut rows = Vec::new(alloc);
    for text in texts {
        rows.push(page_row(alloc, text)?)?;
    }
    Ok(PageRows(rows))
}

fn page_row(alloc: Global, text: &Text) -> Result<PageRow, NoMemory>
    ensures { IfOk result (λ row. row ≡ row_of text.now) }
{
    let mut runs = Vec::new(alloc);
    runs.push(Run {
        column: 1,
        text: text.copy(alloc)?,
        look: Attr::Plain,
    })?;
    Ok(PageRow(runs))
}

/// Paints what asks over the page.
fn paint_asking(grid: &mut Grid, alloc: Global, asking: &Option<Asking>) -> Result<(), NoMemory>
    ensures over { OnOk result (grid.new ≡ with_asking asking.now grid.old) }
    ensures size { OnOk result ((grid.new.lines ≡ grid.old.lines) × (grid.new.columns ≡ grid.old.columns)) }
{
    match asking {
        None => Ok(()),
        Some(asking) => paint_question(grid, alloc, asking),
    }
}

fn paint_question(grid: &mut Grid, alloc: Global, asking: &Asking) -> Result<(), NoMemory>
    ensures over { OnOk result (grid.new ≡ with_asking (Some asking.now) grid.old) }
    ensures size { OnOk result ((grid.new.lines ≡ grid.old.lines) × (grid.new.columns ≡ grid.old.columns)) }
{
    match asking {
        Asking::Text(asked) => {
            paint_line(grid, alloc, &asked.line)?;
            Ok(())
        }
        Asking::Leaving => {
            paint_lines(grid, alloc, leaving_lines(alloc)?)?;
            Ok(())
        }
    }
}

/// Paints an input line.
fn paint_line(grid: &mut Grid, alloc: Global, line: &InputLine) -> Result<(), NoMemory>
    ensures field { OnOk result (grid.new ≡ with_input grid.old line.now) }
    ensures size { OnOk result ((grid.new.lines ≡ grid.old.lines) × (grid.new.columns ≡ grid.old.columns)) }
{
    line.paint(alloc, grid)?;
    Ok(())
}

/// Paints the message over all.
fn paint_message(
    grid: &mut Grid,
    alloc: Global,
    refused: &Option<EditError>,
) -> Result<(), NoMemory>
    ensures over { OnOk result (grid.new ≡ with_message refused.now grid.old) }
    ensures size { OnOk result ((grid.new.lines ≡ grid.old.lines) × (grid.new.columns ≡ grid.old.columns)) }
{
    match refused {
        None => Ok(()),
        Some(why) => paint_lines(grid, alloc, message_lines(alloc, *why)?),
    }
}

/// Paints a box of plain lines.
fn paint_lines(grid: &mut Grid, alloc: Global, lines: Rows) -> Result<(), NoMemory>
    requires { length lines < 2 ^ 48 }
    ensures painted { OnOk result (grid.new ≡ with_box grid.old (plain_lines_of lines)) }
    ensures size { OnOk result ((grid.new.lines ≡ grid.old.lines) × (grid.new.columns ≡ grid.old.columns)) }
{
    let lines = plain_lines(alloc, lines.as_slice())?;
    paint_box(grid, alloc, &lines)?;
    Ok(())
}
