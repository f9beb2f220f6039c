//! Keys while no box is open.
ghost use Rattle.std.specs.Prelude.{◌≡◌, ◌∷◌, [], false, None, OnErr, IfOk};
ghost use Rattle.mc_ui.specs.declared.asks.KeyAct.{KeyAct as KeyActType};
ghost use Rattle.mc_ui.specs.PanelKeys.{panel_command_of};
ghost use Rattle.ui_plans.specs.Reading.{ReadsTree, sight};
ghost use Rattle.mc_ui.specs.Boxes.{NoBox, seen_box};
ghost use Rattle.mc_ui.specs.Screens.{Chooses, CommandLeads, HasSameSize, WellAsked};
ghost use Rattle.mc_ui.specs.Screens.{Works, is_request, told_refusal, with_ask};

use super::Ui;
use crate::asks::{Ask, KeyAct};
use crate::dialog::Dialog;
use crate::panel_command::{KeyCommand, panel_command};
use job_reports::JobRows;
use key_screen::Key;
use mc_text::NoMemory;
use panel_pair::PanelCommand;
use resolving::ResolveError;
use session_entries::{PlanError, Refusal, Refusals};
use std::alloc::Global;
use tree_trait::ReadTree;
use ui_job_boxes::JobBox;
use ui_plans::{Choice, Opens, choose};
use ui_words::Message;

impl Ui {
    /// A key while no box is open: each command is a row.
    pub(super) fn key_in_panel<T: ReadTree>(
        &mut self,
        alloc: Global,
        tree: &mut T,
        rows: &JobRows,
        key: Key,
    ) -> Result<KeyAct, NoMemory>
        requires clear { self.old.over ≡ NoBox }
        ensures leads { IfOk result (λ act. CommandLeads (panel_command_of key) (T.contents tree.old) rows.now
            act.refusals self.old (with_ask act.ask self.new)) }
        ensures asked { IfOk result (λ act. WellAsked rows.now act.ask) }
        ensures unasked { IfOk result (λ act. is_request act.ask ≡ false) }
        ensures size { HasSameSize self.old self.new }
        ensures settled { self.new.planned ≡ None }
        ensures lost { OnErr result (self.new ≡ self.old) }
        ensures reads { ReadsTree (λ (act : KeyActType). act.refusals) result (T.contents tree.old)
            (T.contents tree.new)
            (T.fault_count tree.old) (T.fault_count tree.new) }
    {
        let _lines = &self.lines;
        match panel_command(key) {
            KeyCommand::Work(command) => self.work(alloc, tree, command),
            KeyCommand::ShowHelp => {
                self.show_help();
                Ok(asking_nothing(alloc))
            }
            KeyCommand::View => self.view_current(alloc, tree),
            KeyCommand::Open(opens) => self.open_box(alloc, tree, opens),
            KeyCommand::AskFolder => {
                self.ask_folder(alloc)?;
                Ok(asking_nothing(alloc))
            }
            KeyCommand::OpenPanelBox(opening) => {
                self.open_panel_box(alloc, opening)?;
                Ok(asking_nothing(alloc))
            }
            KeyCommand::Find => {
                self.ask_find(alloc)?;
                Ok(asking_nothing(alloc))
            }
            KeyCommand::Quit => Ok(asking(alloc, Ask::End)),
            KeyCommand::Nothing => Ok(asking_nothing(alloc)),
        }
    }

    /// Does what a command of the panels says. Where it is refused they stay as they
    /// were, and a message says so.
    pub(super) fn work<T: ReadTree>(
        &mut self,
        alloc: Global,
        tree: &mut T,
        command: PanelCommand,
    ) -> Result<KeyAct, NoMemory>
        ensures leads { IfOk result (λ act.
            Works command (T.contents tree.old) act.refusals self.old self.new) }
        ensures asks { IfOk result (λ act. act.ask ≡ Ask.Nothing) }
        ensures size { HasSameSize self.old self.new }
        ensures settled { self.new.planned ≡ None }
        ensures lost { OnErr result (self.new ≡ self.old) }
        ensures reads { ReadsTree (λ (act : KeyActType). act.refusals) result (T.contents tree.old)
            (T.contents tree.new)
            (T.fault_count tree.old) (T.fault_count tree.new) }
    {
        let _dialog = &self.dialog;
        let page = self.page();
        match self.panels.work(alloc, tree, page, command) {
            Ok(()) => Ok(asking_nothing(alloc)),
            Err(ResolveError::Memory) => Err(NoMemory),
            Err(error) => self.refuse(alloc, Refusal::Resolve(error)),
        }
    }

    /// Shows the help.
    fn show_help(&mut self)
        ensures { self.new ≡ record self.old { message = Some Message.Help } }
    {
        self.message = Some(Message::Help);
    }

    /// Opens a box on the things that are selected, if the box may ask of them. Where nothing is
    /// selected a message says so.
    pub(super) fn open_box<T: ReadTree>(
        &mut self,
        alloc: Global,
        tree: &mut T,
        opens: Opens,
    ) -> Result<KeyAct, NoMemory>
        requires clear { self.old.over ≡ NoBox }
        ensures leads { IfOk result (λ act. Chooses opens (sight (T.contents tree.old))
            self.old.panels.current act.refusals self.old self.new) }
        ensures asks { IfOk result (λ act. act.ask ≡ Ask.Nothing) }
        ensures size { HasSameSize self.old self.new }
        ensures settled { self.new.planned ≡ None }
        ensures lost { OnErr result (self.new ≡ self.old) }
        ensures reads { ReadsTree (λ (act : KeyActType). act.refusals) result (T.contents tree.old)
            (T.contents tree.new)
            (T.fault_count tree.old) (T.fault_count tree.new) }
    {
        let _lines = &self.lines;
        match choose(alloc, tree, self.panels().current(), opens)? {
            Choice::NoSelection => self.refuse(alloc, Refusal::Plan(PlanError::NoSelection)),
            Choice::TooLong => self.refuse(alloc, Refusal::Plan(PlanError::TooLong)),
            Choice::Things(chosen, mode) => {
                self.show_box(Dialog::Job(JobBox::open(alloc, opens, chosen, mode)?));
                Ok(asking_nothing(alloc))
            }
            Choice::Refused(path, error) => self.refuse(alloc, Refusal::Tree(path, error)),
        }
    }

    /// Tells of a refusal, in a message and in what the key comes to.
    pub(super) fn refuse(&mut self, alloc: Global, refusal: Refusal) -> Result<KeyAct, NoMemory>
        ensures told { IfOk result (λ _act. self.new ≡ told_refusal refusal self.old) }
        ensures act { IfOk result (λ act. act ≡ record { ask = Ask.Nothing; refusals = refusal ∷ [] }) }
        ensures size { HasSameSize self.old self.new }
        ensures lost { OnErr result (self.new ≡ self.old) }
    {
        let told = refusal.copy(alloc)?;
        let refusals = one_refusal(alloc, refusal)?;
        self.message = Some(Message::Refused(told));
        Ok(KeyAct {
            ask: Ask::Nothing,
            refusals,
        })
    }
}

/// A key that asks nothing.
pub(super) fn asking_nothing(alloc: Global) -> KeyAct
    ensures { result ≡ record { ask = Ask.Nothing; refusals = [] } }
{
    asking(alloc, Ask::Nothing)
}

/// A key that asks this.
pub(super) fn asking(alloc: Global, ask: Ask) -> KeyAct
    ensures { result ≡ record { ask = ask; refusals = [] } }
{
    KeyAct {
        ask,
        refusals: Refusals(Vec::new(alloc)),
    }
}

/// One refusal.
fn one_refusal(alloc: Global, refusal: Refusal) -> Result<Refusals, NoMemory>
    ensures { IfOk result (λ refusals. refusals ≡ refusal ∷ []) }
{
    let mut refusals = Vec::new(alloc);
    refusals.push(refusal)?;
    Ok(Refusals(refusals))
}
