//! The frame of the screen.
ghost use Rattle.std.specs.Prelude.{◌≡◌, ◌<◌, ◌^◌, length, IfOk, OnOk};
ghost use Rattle.mc_dialogs.specs.Boxes.{with_box};
ghost use Rattle.screen_frame.specs.Frames.{panels_frame};
ghost use Rattle.mc_dialogs.specs.QuestionKeys.{plain_lines as plain_lines_of};
ghost use Rattle.panel_pair.specs.Frames.{panes_of};
ghost use Rattle.mc_ui.specs.Frames.{counts_of as counts_in, frame_below, frame_of, with_message, with_over};
ghost use Rattle.mc_ui.specs.Boxes.{seen_box};
ghost use Rattle.mc_ui.specs.Screens.{frame_size};

mod counting;

use crate::dialog::Dialog;
use crate::ui::Ui;
use counting::counts_of;
use job_reports::JobRows;
use key_screen::Grid;
use mc_dialogs::{paint_box, plain_lines};
use mc_text::{NoMemory, Rows};
use screen_frame::paint_panels;
use std::alloc::Global;
use ui_words::{Message, columns_in_box, message_lines};

impl Ui {
    /// The frame of the screen while these jobs are live. It takes the time of the cells and texts on the
    /// screen and of the jobs' rows, and goes through no more of a folder's names.
    #[tactic(auto, unfolding(crate::specs::Frames::frame_of))]
    pub fn frame(&self, alloc: Global, rows: &JobRows) -> Result<Grid, NoMemory>
        ensures frame { IfOk result (λ grid. grid ≡ frame_of self.now rows.now) }
        ensures size { IfOk result
            (λ grid. (grid.lines ≡ self.now.lines) × (grid.columns ≡ self.now.columns)) }
    {
        match self.viewing() {
            None => self.frame_below(alloc, rows),
            Some(viewed) => viewed.mode.frame(alloc, self.lines(), self.columns()),
        }
    }

    /// The frame of the panels, and of what stands over them.
    #[tactic(auto, unfolding(crate::specs::Frames::frame_below))]
    fn frame_below(&self, alloc: Global, rows: &JobRows) -> Result<Grid, NoMemory>
        ensures frame { IfOk result (λ grid. grid ≡ frame_below self.now rows.now) }
        ensures size { IfOk result
            (λ grid. (grid.lines ≡ self.now.lines) × (grid.columns ≡ self.now.columns)) }
    {
        let mut grid = self.panel_frame(alloc, rows)?;
        paint_dialog(&mut grid, alloc, self.dialog(), rows)?;
        paint_message(&mut grid, alloc, self.message())?;
        Ok(grid)
    }

    /// The panels, the line of jobs and the key bar.
    fn panel_frame(&self, alloc: Global, rows: &JobRows) -> Result<Grid, NoMemory>
        ensures frame { IfOk result (λ grid. grid ≡ panels_frame self.now.lines self.now.columns
            (panes_of (frame_size self.now) self.now.panels) (counts_in rows.now)) }
        ensures size { IfOk result
            (λ grid. (grid.lines ≡ self.now.lines) × (grid.columns ≡ self.now.columns)) }
    {
        let panes = self.panels().panes(alloc, self.frame_size())?;
        let counts = counts_of(rows.0.as_slice());
        paint_panels(alloc, self.lines(), self.columns(), &panes, &counts)
    }
}

/// Paints the box over the panels, while these jobs are live.
fn paint_dialog(
    grid: &mut Grid,
    alloc: Global,
    dialog: &Dialog,
    rows: &JobRows,
) -> Result<(), NoMemory>
    ensures over { OnOk result (grid.new ≡ with_over (seen_box dialog.now) rows.now grid.old) }
    ensures size { OnOk result ((grid.new.lines ≡ grid.old.lines) × (grid.new.columns ≡ grid.old.columns)) }
{
    paint_box_of(grid, alloc, dialog, rows)?;
    Ok(())
}

fn paint_box_of(
    grid: &mut Grid,
    alloc: Global,
    dialog: &Dialog,
    rows: &JobRows,
) -> Result<(), NoMemory>
    ensures { OnOk result (grid.new ≡ with_over (seen_box dialog.now) rows.now grid.old) }
{
    match dialog {
        Dialog::Nothing => Ok(()),
        Dialog::Job(asks) => {
            asks.paint(alloc, grid)?;
            Ok(())
        }
        Dialog::Panel(asks) => {
            asks.paint(alloc, grid)?;
            Ok(())
        }
        Dialog::Find(find) => {
            find.paint(alloc, grid)?;
            Ok(())
        }
        Dialog::Jobs(list) => {
            list.paint(alloc, rows, grid)?;
            Ok(())
        }
    }
}

/// Paints the message over all.
fn paint_message(grid: &mut Grid, alloc: Global, message: &Option<Message>) -> Result<(), NoMemory>
    ensures over { OnOk result (grid.new ≡ with_message message.now grid.old) }
    ensures size { OnOk result ((grid.new.lines ≡ grid.old.lines) × (grid.new.columns ≡ grid.old.columns)) }
{
    match message {
        None => Ok(()),
        Some(message) => {
            let lines = message_lines(alloc, columns_in_box(grid), message)?;
            paint_lines(grid, alloc, lines)
        }
    }
}

/// Paints a box of plain lines.
fn paint_lines(grid: &mut Grid, alloc: Global, lines: Rows) -> Result<(), NoMemory>
    requires { length lines < 2 ^ 48 }
    ensures painted { OnOk result (grid.new ≡ with_box grid.old (plain_lines_of lines)) }
    ensures size { OnOk result ((grid.new.lines ≡ grid.old.lines) × (grid.new.columns ≡ grid.old.columns)) }
{
    let lines = plain_lines(alloc, lines.as_slice())?;
    paint_box(grid, alloc, &lines)?;
    Ok(())
}
