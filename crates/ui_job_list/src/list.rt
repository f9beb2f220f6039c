//! The list, and what a key comes to in it.
ghost use Rattle.std.specs.Prelude.{◌≡◌, ◌<◌, ◌^◌, length, IfOk, OnErr, OnOk};
ghost use Rattle.ui_job_list.specs.JobLists.{act_by, cut_to, enter_act, list_by, moved_by};
ghost use Rattle.ui_job_list.specs.JobLists.{opened_list, page_of as rows_on, row_opened};

use crate::act::JobsAct;
use crate::command::{JobsCommand, jobs_command};
use job_reports::{JobRow, JobRows};
use key_screen::{Base, Key};
use mc_dialogs::{moved, scrolled};
use mc_text::NoMemory;
use std::alloc::Global;

/// The list of the live jobs on a screen of so many lines. It holds no rows: at each key and each draw
/// they are those of the jobs that are live then, and where the last ones are gone the cursor stands
/// on the last that is left.
#[derive(Clone, Copy, Debug, Drop, PartialEq, Eq)]
pub struct JobList {
    pub(crate) lines: u16,
    pub(crate) current: usize,
    pub(crate) first: usize,
}

impl JobList {
    /// The list as it opens: the first job is current.
    pub fn new(lines: u16) -> JobList
        ensures { result ≡ opened_list lines }
    {
        JobList {
            lines,
            current: 0,
            first: 0,
        }
    }

    /// Works a key while these jobs are live. Without memory the list stays as it was. It takes the time of
    /// the paths of one question or trouble at most.
    pub fn key(&mut self, alloc: Global, rows: &JobRows, key: Key) -> Result<JobsAct, NoMemory>
        ensures act { IfOk result (λ act. act ≡ act_by rows.now self.old key) }
        ensures state { OnOk result (self.new ≡ list_by rows.now self.old key) }
        ensures lost { OnErr result (self.new ≡ self.old) }
    {
        match jobs_command(key) {
            JobsCommand::Move(base) => {
                *self = self.moved_by(rows.0.as_slice(), base);
                Ok(JobsAct::Stays)
            }
            JobsCommand::Open => open_current(alloc, *self, rows.0.as_slice()),
            JobsCommand::Leave => Ok(JobsAct::Leaves),
            JobsCommand::Nothing => Ok(JobsAct::Stays),
        }
    }

    /// The list once a key has made another job current.
    fn moved_by(self, rows: &[JobRow], base: Base) -> JobList
        ensures { result ≡ moved_by (length rows.now) base self }
    {
        let page = self.page();
        let cut = self.cut_to(rows);
        let current = moved(rows.len(), page, cut.current, base);
        JobList {
            lines: self.lines,
            current,
            first: scrolled(page, cut.first, current),
        }
    }

    /// The list over as many rows as there are: neither the current row nor the first one
    /// shown lies behind the last.
    pub(crate) fn cut_to(self, rows: &[JobRow]) -> JobList
        ensures value { result ≡ cut_to (length rows.now) self }
        ensures current { result.current < 2 ^ 59 }
        ensures first { result.first < 2 ^ 59 }
    {
        let last = rows.len().saturating_sub(1);
        JobList {
            lines: self.lines,
            current: self.current.min(last),
            first: self.first.min(last),
        }
    }

    /// How many rows are shown at most.
    pub(crate) fn page(self) -> usize
        ensures value { result ≡ rows_on self }
        ensures bound { result < 2 ^ 16 }
    {
        usize::from(self.lines).saturating_sub(6)
    }
}

/// What Enter comes to.
fn open_current(alloc: Global, list: JobList, rows: &[JobRow]) -> Result<JobsAct, NoMemory>
    ensures { IfOk result (λ act. act ≡ enter_act rows.now list) }
{
    match rows.get(list.cut_to(rows).current) {
        None => Ok(JobsAct::Leaves),
        Some(row) => open_row(alloc, row),
    }
}

/// The box of what a job waits with is opened, if it waits.
fn open_row(alloc: Global, row: &JobRow) -> Result<JobsAct, NoMemory>
    ensures { IfOk result (λ act. act ≡ row_opened row.now) }
{
    match row.waits(alloc)? {
        None => Ok(JobsAct::Leaves),
        Some(waits) => Ok(JobsAct::Opens(waits)),
    }
}
