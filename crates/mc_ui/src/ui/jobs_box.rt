//! Keys while the live jobs are listed. The list was taken out, and what stands there after the
//! key is put in its place.
ghost use Rattle.std.specs.Prelude.{◌≡◌, [], None, OnErr, OnOk, IfOk};
ghost use Rattle.mc_ui.specs.declared.asks.Ask.{Ask};
ghost use Rattle.mc_ui.specs.Boxes.{JobsBox, NoBox, seen_box};
ghost use Rattle.mc_ui.specs.ListedJobs.{left_by_jobs};
ghost use Rattle.mc_ui.specs.Screens.{HasSameSize};

use super::Ui;
use super::panel_keys::asking_nothing;
use crate::asks::KeyAct;
use crate::dialog::Dialog;
use job_reports::JobRows;
use key_screen::Key;
use mc_text::NoMemory;
use std::alloc::Global;
use ui_job_boxes::JobBox;
use ui_job_list::{JobList, JobsAct};

impl Ui {
    /// A key while these jobs are listed: the list stays or is shut, or the box of what a job waits
    /// with stands in its place.
    pub(super) fn key_in_jobs(
        &mut self,
        alloc: Global,
        list: JobList,
        rows: &JobRows,
        key: Key,
    ) -> Result<KeyAct, NoMemory>
        requires clear { self.old.over ≡ NoBox }
        ensures leads { OnOk result (self.new ≡ record self.old { over = left_by_jobs rows.now list key }) }
        ensures asks { IfOk result (λ act. act ≡ record { ask = Ask.Nothing; refusals = [] }) }
        ensures size { HasSameSize self.old self.new }
        ensures settled { self.new.planned ≡ None }
        ensures lost { OnErr result (self.new ≡ record self.old { over = JobsBox list }) }
    {
        let _lines = &self.lines;
        let mut list = list;
        let act = list.key(alloc, rows, key);
        match act {
            Ok(JobsAct::Stays) => {
                self.show_box(Dialog::Jobs(list));
                Ok(asking_nothing(alloc))
            }
            Ok(JobsAct::Opens(waits)) => {
                self.show_box(Dialog::Job(JobBox::Answer(waits)));
                Ok(asking_nothing(alloc))
            }
            Ok(JobsAct::Leaves) => Ok(asking_nothing(alloc)),
            Err(error) => {
                self.show_box(Dialog::Jobs(list));
                Err(error)
            }
        }
    }
}
