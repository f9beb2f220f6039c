//! How the list is painted.
ghost use Rattle.std.specs.Prelude.{◌≡◌, map, IfOk, OnOk};
ghost use Rattle.ui_job_list.specs.JobLines.{job_line as line_of_job};
ghost use Rattle.ui_job_list.specs.JobLists.{with_jobs};

use crate::line::job_line;
use crate::list::JobList;
use job_reports::{JobRow, JobRows};
use key_screen::Grid;
use mc_dialogs::{paint_list, rows_from};
use mc_text::{NoMemory, Text};
use std::alloc::Global;

impl JobList {
    /// Paints it over a screen while these jobs are live. It takes the time of the rows that it shows.
    /// Where memory is wanting, a part of it may stand.
    pub fn paint(&self, alloc: Global, rows: &JobRows, grid: &mut Grid) -> Result<(), NoMemory>
        ensures { OnOk result (grid.new ≡ with_jobs rows.now self.now grid.old) }
    {
        let cut = self.cut_to(rows.0.as_slice());
        let shown = rows_from(rows.0.as_slice(), cut.first, cut.page());
        let lines = job_lines(alloc, shown)?;
        paint_list(grid, alloc, "Jobs", &lines, cut.first, cut.current)
    }
}

/// The lines of some jobs.
fn job_lines(alloc: Global, rows: &[JobRow]) -> Result<Vec<Text>, NoMemory>
    ensures { IfOk result (λ lines. lines.items ≡ map line_of_job rows.now) }
{
    let mut lines = Vec::new(alloc);
    for row in rows {
        lines.push(job_line(alloc, row)?)?;
    }
    Ok(lines)
}
