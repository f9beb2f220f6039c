//! How the boxes are painted.
ghost use Rattle.std.specs.Prelude.{◌≡◌, ◌<◌, ◌^◌, length, OnOk};
ghost use Rattle.mc_dialogs.specs.Boxes.{with_box};
ghost use Rattle.mc_dialogs.specs.QuestionKeys.{plain_lines as plain_lines_of};
ghost use Rattle.ui_job_boxes.specs.JobBoxes.{seen_job_box};
ghost use Rattle.ui_job_boxes.specs.Paintings.{with_job_box};

use crate::job_box::JobBox;
use key_screen::Grid;
use mc_dialogs::{paint_box, plain_lines};
use mc_text::{NoMemory, Rows};
use std::alloc::Global;
use ui_words::{columns_in_box, delete_lines, waits_lines};

impl JobBox {
    /// Paints it over a screen. Where memory is wanting, a part of it may stand.
    pub fn paint(&self, alloc: Global, grid: &mut Grid) -> Result<(), NoMemory>
        ensures { OnOk result (grid.new ≡ with_job_box (seen_job_box self.now) grid.old) }
    {
        match self {
            JobBox::Delete(chosen) => {
                let columns = columns_in_box(grid);
                let lines = delete_lines(alloc, columns, chosen.paths.as_slice())?;
                paint_lines(grid, alloc, lines)?;
                Ok(())
            }
            JobBox::SourceMask(_, _, line) => {
                line.paint(alloc, grid)?;
                Ok(())
            }
            JobBox::CarryTo(_, line) => {
                line.paint(alloc, grid)?;
                Ok(())
            }
            JobBox::MakeFolder(line) => {
                line.paint(alloc, grid)?;
                Ok(())
            }
            JobBox::LinkText(line) => {
                line.paint(alloc, grid)?;
                Ok(())
            }
            JobBox::LinkName(_, line) => {
                line.paint(alloc, grid)?;
                Ok(())
            }
            JobBox::Mode(_, asked) => {
                asked.paint(alloc, grid)?;
                Ok(())
            }
            JobBox::Answer(waits) => {
                let lines = waits_lines(alloc, columns_in_box(grid), waits)?;
                paint_lines(grid, alloc, lines)?;
                Ok(())
            }
        }
    }
}

/// Paints a box of plain lines.
fn paint_lines(grid: &mut Grid, alloc: Global, lines: Rows) -> Result<(), NoMemory>
    requires { length lines < 2 ^ 48 }
    ensures { OnOk result (grid.new ≡ with_box grid.old (plain_lines_of lines)) }
{
    let lines = plain_lines(alloc, lines.as_slice())?;
    paint_box(grid, alloc, &lines)
}
