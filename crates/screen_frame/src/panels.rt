//! The frame of the panels.
ghost use Rattle.std.specs.Prelude.{◌≡◌, ◌<◌, ◌^◌, OnOk, IfOk};
ghost use Rattle.screen_frame.specs.Pieces.{painted_grid};
ghost use Rattle.screen_frame.specs.Panes.{pane_pieces};
ghost use Rattle.screen_frame.specs.JobsLine.{live_jobs};
ghost use Rattle.screen_frame.specs.Frames.{rows_below, panels_frame};

use crate::jobs_line::{JobCounts, jobs_text};
use crate::key_bar::{KeyBar, bar_text};
use crate::pane::write_pane;
use crate::panes::Panes;
use crate::writing::write_line;
use key_screen::{Attr, Grid};
use mc_text::NoMemory;
use std::alloc::Global;
use std::convert::AsStr;

/// A screen of so many lines and columns that shows the panels and the live jobs. It takes time linear in
/// the cells and in the texts.
#[tactic(auto, unfolding(crate::specs::Frames::panels_frame))]
pub fn paint_panels(
    alloc: Global,
    lines: u16,
    columns: u16,
    panes: &Panes,
    jobs: &JobCounts,
) -> Result<Grid, NoMemory>
    requires { live_jobs jobs.now < 2 ^ 64 }
    ensures frame { IfOk result (λ grid. grid ≡ panels_frame lines columns panes.now jobs.now) }
    ensures size { IfOk result (λ grid. (grid.lines ≡ lines) × (grid.columns ≡ columns)) }
{
    let mut grid = Grid::blank(alloc, lines, columns)?;
    write_panes(&mut grid, alloc, lines, columns, panes)?;
    write_below(&mut grid, alloc, lines, columns, jobs)?;
    Ok(grid)
}

/// Writes the last two rows: the live jobs, and the keys.
fn write_below(
    grid: &mut Grid,
    alloc: Global,
    lines: u16,
    columns: u16,
    jobs: &JobCounts,
) -> Result<(), NoMemory>
    requires { live_jobs jobs.now < 2 ^ 64 }
    ensures { OnOk result (grid.new ≡ painted_grid grid.old (rows_below lines columns jobs.now)) }
{
    let said = jobs_text(alloc, jobs)?;
    let keys = bar_text(alloc, KeyBar::Panels)?;
    let row = lines.saturating_sub(1);
    write_line(grid, alloc, row, columns, said.as_str(), Attr::Plain)?;
    write_line(grid, alloc, lines, columns, keys.as_str(), Attr::Plain)
}

/// Writes the panes that are shown.
#[tactic(auto, using(crate::proofs::Painted::painted_append))]
fn write_panes(
    grid: &mut Grid,
    alloc: Global,
    lines: u16,
    columns: u16,
    panes: &Panes,
) -> Result<(), NoMemory>
    ensures { OnOk result (grid.new ≡ painted_grid grid.old (pane_pieces lines columns panes.now)) }
{
    match panes {
        Panes::Both(left, right) => {
            let half = columns / 2;
            write_pane(grid, alloc, lines, 1, half, left)?;
            write_pane(grid, alloc, lines, 1 + half, columns - half, right)
        }
        Panes::Whole(pane) => write_pane(grid, alloc, lines, 1, columns, pane),
    }
}
