//! The boxes of the panels. A box was taken out while it is worked in, and is put back where it stays.
ghost use Rattle.std.specs.Prelude.{◌≡◌, None, OnErr, OnOk, IfOk};
ghost use Rattle.ui_plans.specs.Reading.{ReadsTree};
ghost use Rattle.panel_boxes.specs.Openings.{opened_panel_box as opened_box};
ghost use Rattle.panel_boxes.specs.Replies.{box_after, reply_to};
ghost use Rattle.mc_ui.specs.declared.asks.Ask.{Ask};
ghost use Rattle.mc_ui.specs.declared.asks.KeyAct.{KeyAct as KeyActType};
ghost use Rattle.mc_ui.specs.Boxes.{NoBox, PanelsBox, seen_box};
ghost use Rattle.mc_ui.specs.Screens.{HasSameSize, PanelLeads};

use super::Ui;
use super::panel_keys::asking_nothing;
use crate::asks::KeyAct;
use crate::dialog::Dialog;
use key_screen::Key;
use mc_text::NoMemory;
use panel_boxes::{Opening, PanelBox, PanelReply};
use session_entries::Refusal;
use std::alloc::Global;
use tree_trait::ReadTree;
use ui_job_list::JobList;
use ui_plans::Opens;

impl Ui {
    /// Opens a box of the panels.
    pub(super) fn open_panel_box(&mut self, alloc: Global, opening: Opening) -> Result<(), NoMemory>
        ensures opened { OnOk result
            (self.new ≡ record self.old { over = PanelsBox (opened_box self.old.lines opening) }) }
        ensures lost { OnErr result (self.new ≡ self.old) }
    {
        let opened = PanelBox::open(alloc, self.lines(), opening)?;
        self.show_box(Dialog::Panel(opened));
        Ok(())
    }

    /// A key while a box of the panels is open.
    pub(super) fn key_in_panel_box<T: ReadTree>(
        &mut self,
        alloc: Global,
        tree: &mut T,
        asks: PanelBox,
        key: Key,
    ) -> Result<KeyAct, NoMemory>
        requires clear { self.old.over ≡ NoBox }
        ensures leads { IfOk result (λ act.
            PanelLeads (reply_to self.old.panels asks key) (box_after asks key) (T.contents tree.old)
            act.refusals self.old self.new) }
        ensures asks { IfOk result (λ act. act.ask ≡ Ask.Nothing) }
        ensures size { HasSameSize self.old self.new }
        ensures settled { self.new.planned ≡ None }
        ensures lost { OnErr result (self.new ≡ record self.old { over = PanelsBox asks }) }
        ensures reads { ReadsTree (λ (act : KeyActType). act.refusals) result (T.contents tree.old)
            (T.contents tree.new)
            (T.fault_count tree.old) (T.fault_count tree.new) }
    {
        let _lines = &self.lines;
        let mut asks = asks;
        let reply = asks.key(alloc, self.panels(), key);
        match reply {
            Ok(PanelReply::Stays) => {
                self.show_box(Dialog::Panel(asks));
                Ok(asking_nothing(alloc))
            }
            Ok(PanelReply::Shuts) => Ok(asking_nothing(alloc)),
            Ok(PanelReply::Opens(next)) => {
                self.show_box(Dialog::Panel(next));
                Ok(asking_nothing(alloc))
            }
            Ok(PanelReply::Does(command)) => match self.work(alloc, tree, command) {
                Ok(act) => Ok(act),
                Err(error) => {
                    self.show_box(Dialog::Panel(asks));
                    Err(error)
                }
            },
            Ok(PanelReply::ListsJobs) => {
                let list = JobList::new(self.lines());
                self.show_box(Dialog::Jobs(list));
                Ok(asking_nothing(alloc))
            }
            Ok(PanelReply::AsksLink) => match self.ask_link(alloc) {
                Ok(()) => Ok(asking_nothing(alloc)),
                Err(error) => {
                    self.show_box(Dialog::Panel(asks));
                    Err(error)
                }
            },
            Ok(PanelReply::AsksMode) => match self.open_box(alloc, tree, Opens::Mode) {
                Ok(act) => Ok(act),
                Err(error) => {
                    self.show_box(Dialog::Panel(asks));
                    Err(error)
                }
            },
            Ok(PanelReply::Refuses(error)) => {
                self.show_box(Dialog::Panel(asks));
                self.refuse(alloc, Refusal::Typed(error))
            }
            Err(error) => {
                self.show_box(Dialog::Panel(asks));
                Err(error)
            }
        }
    }
}
