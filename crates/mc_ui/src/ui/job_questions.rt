//! The boxes of jobs. A box was taken out while it is worked in, and is put back where it stays.
ghost use Rattle.std.specs.Prelude.{◌≡◌, [], false, true, OnErr, OnOk, IfOk};
ghost use Rattle.ui_words.specs.BoxLines.{folder_line};
ghost use Rattle.ui_job_boxes.specs.JobBoxes.{FolderBox, LinkTextBox, seen_job_box};
ghost use Rattle.ui_job_boxes.specs.Openings.{link_asked};
ghost use Rattle.ui_plans.specs.Reading.{ReadsTree};
ghost use Rattle.mc_ui.specs.declared.asks.KeyAct.{KeyAct as KeyActType};
ghost use Rattle.mc_ui.specs.Boxes.{NoBox, OneJobBox, seen_box};
ghost use Rattle.mc_ui.specs.Screens.{Asks, JobLeads, with_ask};

use super::Ui;
use super::panel_keys::{asking, asking_nothing};
use crate::asks::{Ask, KeyAct};
use crate::dialog::Dialog;
use job_reports::{Job, JobRows};
use key_screen::Key;
use mc_text::NoMemory;
use std::alloc::Global;
use tree_trait::ReadTree;
use ui_job_boxes::{JobBox, JobReply, Surroundings};

impl Ui {
    /// Asks for a new folder.
    pub(super) fn ask_folder(&mut self, alloc: Global) -> Result<(), NoMemory>
        ensures opened { OnOk result
            (self.new ≡ record self.old { over = OneJobBox (FolderBox folder_line) }) }
        ensures lost { OnErr result (self.new ≡ self.old) }
    {
        let asks = JobBox::ask_folder(alloc)?;
        self.show_box(Dialog::Job(asks));
        Ok(())
    }

    /// Asks what a new link is to say.
    pub(super) fn ask_link(&mut self, alloc: Global) -> Result<(), NoMemory>
        ensures opened { OnOk result (self.new
            ≡ record self.old { over = OneJobBox (LinkTextBox (link_asked self.old.panels.current)) }) }
        ensures lost { OnErr result (self.new ≡ self.old) }
    {
        let asks = JobBox::ask_link(alloc, self.panels().current())?;
        self.show_box(Dialog::Job(asks));
        Ok(())
    }

    /// A key while a box of a job is open. It stays until the job is begun, or answered.
    pub(super) fn key_in_job_box<T: ReadTree>(
        &mut self,
        alloc: Global,
        tree: &mut T,
        asks: JobBox,
        rows: &JobRows,
        key: Key,
    ) -> Result<KeyAct, NoMemory>
        requires clear { self.old.over ≡ NoBox }
        ensures leads { IfOk result (λ act.
            JobLeads (seen_job_box asks) (T.contents tree.old) rows.now key act.refusals
            (record self.old { over = OneJobBox (seen_job_box asks) }) (with_ask act.ask self.new)) }
        ensures asks { IfOk result (λ act. Asks rows.now act.ask act.refusals
            (record self.old { over = OneJobBox (seen_job_box asks) }) self.new) }
        ensures rest { record self.new { over = NoBox; message = self.old.message } ≡ self.old }
        ensures lost { OnErr result (self.new ≡ record self.old { over = OneJobBox (seen_job_box asks) }) }
        ensures reads { ReadsTree (λ (act : KeyActType). act.refusals) result (T.contents tree.old)
            (T.contents tree.new)
            (T.fault_count tree.old) (T.fault_count tree.new) }
    {
        let mut asks = asks;
        let around = Surroundings {
            rows,
            current: self.panels().current().folder(),
            other: self.panels().other().folder(),
            home: self.home(),
        };
        let reply = asks.key(alloc, tree, &around, key);
        match reply {
            Ok(JobReply::Stays) => {
                self.show_box(Dialog::Job(asks));
                Ok(asking_nothing(alloc))
            }
            Ok(JobReply::Shuts) => Ok(asking_nothing(alloc)),
            Ok(JobReply::Opens(next)) => {
                self.show_box(Dialog::Job(next));
                Ok(asking_nothing(alloc))
            }
            Ok(JobReply::Begins(plan)) => {
                self.show_box(Dialog::Job(asks));
                Ok(asking(alloc, begin(plan)))
            }
            Ok(JobReply::Answers(answer)) => {
                self.show_box(Dialog::Job(asks));
                Ok(asking(alloc, Ask::Answer(answer)))
            }
            Ok(JobReply::Refuses(refusal)) => {
                self.show_box(Dialog::Job(asks));
                self.refuse(alloc, refusal)
            }
            Err(error) => {
                self.show_box(Dialog::Job(asks));
                Err(error)
            }
        }
    }
}

/// The request for a job in the foreground.
fn begin(plan: Job) -> Ask
    ensures { result ≡ Ask.Begin plan false }
{
    Ask::Begin {
        plan,
        background: false,
    }
}
