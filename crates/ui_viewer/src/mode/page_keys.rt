//! Keys while no line asks.
ghost use Rattle.std.specs.Prelude.{◌≡◌, None, Some, IfOk, OnErr};
ghost use Rattle.ui_viewer.specs.ViewerKeys.{viewer_command as command_of_key};
ghost use Rattle.ui_viewer.specs.Motions.{LooksAtNothing};
ghost use Rattle.ui_viewer.specs.declared.act.ViewerAct.{ViewerAct as ViewerActType};
ghost use Rattle.ui_viewer.specs.ViewerScreens.{CommandLeads, MotionLeads, ReadsTree};
ghost use Rattle.ui_viewer.specs.ViewerScreens.{act_of as act_with, wanted_by_command, with_question};

use super::ViewerMode;
use crate::act::ViewerAct;
use crate::asking::{Question, ask, place_question};
use crate::command::{ViewerCommand, viewer_command};
use crate::motion::{Motion, page_after};
use key_screen::Key;
use mc_text::NoMemory;
use mc_viewer::ViewError;
use std::alloc::Global;
use tree_trait::ReadTree;

impl ViewerMode {
    /// A key while no line asks: each command is a row.
    pub(super) fn key_in_page<T: ReadTree>(
        &mut self,
        alloc: Global,
        tree: &mut T,
        key: Key,
    ) -> Result<ViewerAct, NoMemory>
        requires clear { self.old.asking ≡ None }
        ensures leads { IfOk result (λ act.
            CommandLeads (command_of_key key) (T.contents tree.old) act self.old self.new) }
        ensures still { LooksAtNothing (wanted_by_command (command_of_key key)) self.old.viewer
            → tree.new ≡ tree.old }
        ensures lost { OnErr result (self.new ≡ self.old) }
        ensures reads { ReadsTree (λ (act : ViewerActType). act) result (T.contents tree.old)
            (T.contents tree.new) (T.fault_count tree.old) (T.fault_count tree.new) }
    {
        let _title = &self.title;
        match viewer_command(key) {
            ViewerCommand::Step(step) => self.follow(alloc, tree, Motion::Step(step)),
            ViewerCommand::AskPlace => {
                let is_hex = self.viewer.is_hex();
                self.open_line(alloc, place_question(is_hex))
            }
            ViewerCommand::Ask(question) => self.open_line(alloc, question),
            ViewerCommand::SearchNext => self.follow(alloc, tree, Motion::SearchNext),
            ViewerCommand::Leave => Ok(ViewerAct::Leaves),
            ViewerCommand::Nothing => Ok(ViewerAct::Stays),
        }
    }

    /// Opens the line that asks a question.
    fn open_line(&mut self, alloc: Global, question: Question) -> Result<ViewerAct, NoMemory>
        ensures act { IfOk result (λ act. act ≡ ViewerAct.Stays) }
        ensures line { IfOk result (λ _act. self.new ≡ with_question question self.old) }
        ensures lost { OnErr result (self.new ≡ self.old) }
    {
        let _title = &self.title;
        let asking = ask(alloc, question)?;
        self.asking = Some(asking);
        Ok(ViewerAct::Stays)
    }

    /// Goes where a motion leads, while no line asks.
    fn follow<T: ReadTree>(
        &mut self,
        alloc: Global,
        tree: &mut T,
        motion: Motion,
    ) -> Result<ViewerAct, NoMemory>
        requires clear { self.old.asking ≡ None }
        ensures leads { IfOk result (λ act. MotionLeads motion (T.contents tree.old) act self.old self.new) }
        ensures still { LooksAtNothing (Some motion) self.old.viewer → tree.new ≡ tree.old }
        ensures lost { OnErr result (self.new ≡ self.old) }
        ensures reads { ReadsTree (λ (act : ViewerActType). act) result (T.contents tree.old)
            (T.contents tree.new) (T.fault_count tree.old) (T.fault_count tree.new) }
    {
        let why = self.make(alloc, tree, motion)?;
        Ok(act_of(why))
    }

    /// Makes a motion, and gives why it was refused, where it was: then the viewer stays where it stood,
    /// and a message says so. No line asks any more.
    pub(super) fn make<T: ReadTree>(
        &mut self,
        alloc: Global,
        tree: &mut T,
        motion: Motion,
    ) -> Result<Option<ViewError>, NoMemory>
        requires clear { self.old.asking ≡ None }
        ensures leads { IfOk result (λ why.
            MotionLeads motion (T.contents tree.old) (act_with why) self.old self.new) }
        ensures still { LooksAtNothing (Some motion) self.old.viewer → tree.new ≡ tree.old }
        ensures lost { OnErr result (self.new ≡ self.old) }
        ensures reads { ReadsTree act_with result (T.contents tree.old) (T.contents tree.new)
            (T.fault_count tree.old) (T.fault_count tree.new) }
    {
        let _title = &self.title;
        match page_after(&mut self.viewer, alloc, tree, motion) {
            Ok(rows) => {
                self.rows = rows;
                Ok(None)
            }
            Err(ViewError::Memory) => Err(NoMemory),
            Err(error) => {
                self.refused = Some(error);
                Ok(Some(error))
            }
        }
    }
}

/// What a key comes to whose motion was refused so, or wasn't.
fn act_of(why: Option<ViewError>) -> ViewerAct
    ensures { result ≡ act_with why }
{
    match why {
        None => ViewerAct::Stays,
        Some(error) => ViewerAct::Refused(error),
    }
}
