//! What stands on the screen: two panels, the box over them, a message over these, and a file
//! that is viewed over all.
ghost use Rattle.std.specs.Prelude.{◌≡◌, ◌<◌, ◌^◌, [], true, is_some, None, OnErr, IfOk};
ghost use Rattle.mc_ui.specs.declared.asks.KeyAct.{KeyAct as KeyActType};
ghost use Rattle.mc_ui.specs.PanelKeys.{plain_base};
ghost use Rattle.ui_plans.specs.Reading.{ReadsTree};
ghost use Rattle.mc_ui.specs.Boxes.{seen_box};
ghost use Rattle.mc_ui.specs.Viewings.{LeavesUnread};
ghost use Rattle.mc_ui.specs.Screens.{Asks, HasSameSize, KeyLeads, WorksBelow, WorksKey, after_message};
ghost use Rattle.mc_ui.specs.Screens.{at_second, frame_size, opened_screen, page_of};
ghost use Rattle.mc_ui.specs.Screens.{settled_screen as screen_settled, with_ask, with_viewer, without_box};

mod find_box;
mod job_questions;
mod jobs_box;
mod look;
mod panel_keys;
mod panel_questions;
mod seeking;
mod viewer_keys;

use crate::asks::{Ask, KeyAct, Told};
use crate::dialog::Dialog;
use crate::panel_command::plain_base;
use crate::viewing::{Leaving, ViewedFile};
use job_reports::JobRows;
use key_screen::Key;
use mc_text::{NoMemory, Path};
use panel_keys::asking_nothing;
use panel_pair::{FrameSize, Panels, page_of};
use std::alloc::Global;
use std::marker::Model;
use std::mem;
use tree_trait::ReadTree;
use ui_viewer::ViewerMode;
use ui_words::{Message, closes_message};

/// What the screen shows. Contracts see the panels, the second of the last key, the box, the message and
/// the file that is viewed.
#[derive(Drop)]
pub struct Ui {
    panels: Panels,
    home: Option<Path>,
    lines: u16,
    columns: u16,
    second: u64,
    dialog: Dialog,
    message: Option<Message>,
    viewing: Option<ViewedFile>,
}

impl Model for Ui {
    ghost use Rattle.std.specs.Prelude.{None};
    ghost use Rattle.mc_ui.specs.Boxes.{seen_box};
    ghost use Rattle.mc_ui.specs.Screens.{Screen};

    ghost Value = { Screen };

    ghost view = { λ u. record {
      panels = u.panels;
      home = u.home;
      lines = u.lines;
      columns = u.columns;
      second = u.second;
      over = seen_box u.dialog;
      message = u.message;
      viewing = u.viewing;
      planned = None;
    } };
}

impl Ui {
    /// Panels alone, on a screen of so many lines and columns, at this second of the clock. A tilde that
    /// is typed stands for HOME.
    pub fn new(panels: Panels, home: Option<Path>, lines: u16, columns: u16, second: u64) -> Ui
        ensures { result ≡ opened_screen panels home lines columns second }
    {
        Ui {
            panels,
            home,
            lines,
            columns,
            second,
            dialog: Dialog::Nothing,
            message: None,
            viewing: None,
        }
    }

    /// Views a file over all that stands there. Leaving it comes back to that, or ends the session.
    pub fn view(&mut self, mode: ViewerMode, leaving: Leaving)
        ensures { self.new ≡ with_viewer mode leaving self.old }
    {
        let _dialog = &self.dialog;
        self.viewing = Some(ViewedFile { mode, leaving });
    }

    /// The panels.
    pub fn panels(&self) -> &Panels
        ensures { result.now ≡ self.now.panels }
    {
        &self.panels
    }

    /// HOME, for which a tilde that is typed stands.
    fn home(&self) -> &Option<Path>
        ensures { result.now ≡ self.now.home }
    {
        &self.home
    }

    /// How many lines the screen has.
    pub fn lines(&self) -> u16
        ensures { result ≡ self.now.lines }
    {
        self.lines
    }

    /// How many columns it has.
    pub fn columns(&self) -> u16
        ensures { result ≡ self.now.columns }
    {
        self.columns
    }

    /// The second of the last key.
    pub fn second(&self) -> u64
        ensures { result ≡ self.now.second }
    {
        self.second
    }

    /// Gives it back the second of an earlier key.
    pub fn set_second(&mut self, second: u64)
        ensures { self.new ≡ at_second second self.old }
    {
        let _dialog = &self.dialog;
        self.second = second;
    }

    /// The box that stands over the panels.
    pub fn dialog(&self) -> &Dialog
        ensures { seen_box result.now ≡ self.now.over }
    {
        &self.dialog
    }

    /// The message over the box.
    pub fn message(&self) -> &Option<Message>
        ensures { result.now ≡ self.now.message }
    {
        &self.message
    }

    /// The file that is viewed.
    pub fn viewing(&self) -> &Option<ViewedFile>
        ensures { result.now ≡ self.now.viewing }
    {
        &self.viewing
    }

    /// Works a key at a second of the clock, while these jobs are live. What was refused, the refusals say,
    /// and a message the first of them. Where the key asks for a job, or answers one, the screen stays as
    /// it is until `settle` tells what became of that. A key of the panels takes what its command takes,
    /// each other the time of what is on the screen, and of the paths and texts of the box; F5, F6 and F8
    /// go over the shown names once, and a new folder's path is looked at name by name.
    pub fn key<T: ReadTree>(
        &mut self,
        alloc: Global,
        tree: &mut T,
        rows: &JobRows,
        key: Key,
        now: u64,
    ) -> Result<KeyAct, NoMemory>
        ensures leads { IfOk result (λ act. KeyLeads (T.contents tree.old) rows.now now key act.refusals
            self.old (with_ask act.ask self.new)) }
        ensures asks { IfOk result (λ act.
            Asks rows.now act.ask act.refusals (at_second now self.old) self.new) }
        ensures size { HasSameSize self.old self.new }
        ensures settled { self.new.planned ≡ None }
        ensures still { LeavesUnread self.old.viewing key → tree.new ≡ tree.old }
        ensures lost { OnErr result (self.new ≡ self.old) }
        ensures reads { ReadsTree (λ (act : KeyActType). act.refusals) result (T.contents tree.old)
            (T.contents tree.new)
            (T.fault_count tree.old) (T.fault_count tree.new) }
    {
        let second = self.second();
        self.set_second(now);
        match self.work_key(alloc, tree, rows, key) {
            Ok(act) => Ok(act),
            Err(error) => {
                self.set_second(second);
                Err(error)
            }
        }
    }

    /// Works a key.
    fn work_key<T: ReadTree>(
        &mut self,
        alloc: Global,
        tree: &mut T,
        rows: &JobRows,
        key: Key,
    ) -> Result<KeyAct, NoMemory>
        ensures leads { IfOk result (λ act. WorksKey (T.contents tree.old) rows.now key act.refusals
            self.old (with_ask act.ask self.new)) }
        ensures asks { IfOk result (λ act. Asks rows.now act.ask act.refusals self.old self.new) }
        ensures size { HasSameSize self.old self.new }
        ensures settled { self.new.planned ≡ None }
        ensures still { LeavesUnread self.old.viewing key → tree.new ≡ tree.old }
        ensures lost { OnErr result (self.new ≡ self.old) }
        ensures reads { ReadsTree (λ (act : KeyActType). act.refusals) result (T.contents tree.old)
            (T.contents tree.new)
            (T.fault_count tree.old) (T.fault_count tree.new) }
    {
        match self.viewing.take() {
            None => self.key_below(alloc, tree, rows, key),
            Some(viewed) => self.key_in_viewer(alloc, tree, viewed, key),
        }
    }

    /// Works a key while no file is viewed.
    fn key_below<T: ReadTree>(
        &mut self,
        alloc: Global,
        tree: &mut T,
        rows: &JobRows,
        key: Key,
    ) -> Result<KeyAct, NoMemory>
        ensures leads { IfOk result (λ act. WorksBelow (T.contents tree.old) rows.now key act.refusals
            self.old (with_ask act.ask self.new)) }
        ensures asks { IfOk result (λ act. Asks rows.now act.ask act.refusals self.old self.new) }
        ensures size { HasSameSize self.old self.new }
        ensures settled { self.new.planned ≡ None }
        ensures lost { OnErr result (self.new ≡ self.old) }
        ensures reads { ReadsTree (λ (act : KeyActType). act.refusals) result (T.contents tree.old)
            (T.contents tree.new)
            (T.fault_count tree.old) (T.fault_count tree.new) }
    {
        if self.has_message() {
            return Ok(self.key_in_message(alloc, key));
        }
        match self.take_box() {
            Dialog::Nothing => self.key_in_panel(alloc, tree, rows, key),
            Dialog::Job(asks) => self.key_in_job_box(alloc, tree, asks, rows, key),
            Dialog::Panel(asks) => self.key_in_panel_box(alloc, tree, asks, key),
            Dialog::Find(find) => self.key_in_find(alloc, tree, find, key),
            Dialog::Jobs(list) => self.key_in_jobs(alloc, list, rows, key),
        }
    }

    /// Tells what became of what the last key asked. Where it was carried out its box is shut, and where a
    /// job was begun nothing is tagged any more; where it was refused, a message says so.
    pub fn settle(&mut self, told: Told)
        ensures settled { self.new ≡ screen_settled told self.old }
        ensures size { HasSameSize self.old self.new }
    {
        match told {
            Told::Nothing => {}
            Told::Begun => self.take_tags(),
            Told::Answered => self.show_box(Dialog::Nothing),
            Told::Refused(refusal) => self.message = Some(Message::Refused(refusal)),
            Told::Lost => {}
        }
    }

    /// A job was begun: its box is shut, and the current panel untagged.
    fn take_tags(&mut self)
        ensures { self.new ≡ screen_settled Told.Begun self.old }
    {
        self.show_box(Dialog::Nothing);
        self.panels.untag();
    }

    /// Puts this box over the panels, in place of what stood there.
    fn show_box(&mut self, dialog: Dialog)
        ensures { self.new ≡ record self.old { over = seen_box dialog } }
    {
        self.dialog = dialog;
    }

    /// Takes away what stands over the panels.
    fn take_box(&mut self) -> Dialog
        ensures taken { seen_box result ≡ self.old.over }
        ensures rest { self.new ≡ without_box self.old }
        ensures settled { self.new.planned ≡ None }
    {
        mem::replace(&mut self.dialog, Dialog::Nothing)
    }

    /// Whether a message is shown.
    fn has_message(&self) -> bool
        ensures { result ≡ is_some self.now.message }
    {
        self.message.is_some()
    }

    /// A key while a message is shown.
    fn key_in_message(&mut self, alloc: Global, key: Key) -> KeyAct
        ensures leads { self.new ≡ after_message (plain_base key) self.old }
        ensures nothing { result ≡ record { ask = Ask.Nothing; refusals = [] } }
        ensures settled { self.new.planned ≡ None }
    {
        let _dialog = &self.dialog;
        if closes_message(plain_base(key)) {
            self.message = None;
        }
        asking_nothing(alloc)
    }

    /// How many items of a column are on the screen.
    fn page(&self) -> usize
        ensures page { result ≡ page_of self.now }
        ensures bound { result < 2 ^ 16 }
    {
        page_of(self.lines)
    }

    /// The size of the screen, and the second by which times are told.
    pub(crate) fn frame_size(&self) -> FrameSize
        ensures { result ≡ frame_size self.now }
    {
        FrameSize {
            lines: self.lines,
            columns: self.columns,
            now: self.second,
        }
    }
}
