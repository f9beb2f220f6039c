//! Keys while a line asks. It was taken out, and is put back where it stays.
ghost use Rattle.std.specs.Prelude.{◌≡◌, None, Some, IfOk, OnErr};
ghost use Rattle.ui_words.specs.BoxKeys.{line_reply as line_reply_of};
ghost use Rattle.mc_dialogs.specs.InputKeys.{input_after, input_shut};
ghost use Rattle.ui_viewer.specs.Motions.{LooksAtNothing, motion_of as motion_asked_for};
ghost use Rattle.ui_viewer.specs.declared.act.ViewerAct.{ViewerAct as ViewerActType};
ghost use Rattle.ui_viewer.specs.ViewerScreens.{AnswerLeads, LineLeads, MotionLeads};
ghost use Rattle.ui_viewer.specs.ViewerScreens.{ReadsTree, wanted_by_reply};

use super::ViewerMode;
use crate::act::ViewerAct;
use crate::asking::{Asking, type_in};
use crate::motion::{Motion, motion_of};
use key_screen::Key;
use mc_text::{NoMemory, Text};
use std::alloc::Global;
use tree_trait::ReadTree;
use ui_words::LineReply;

impl ViewerMode {
    /// A key while a line asks.
    pub(super) fn key_in_line<T: ReadTree>(
        &mut self,
        alloc: Global,
        tree: &mut T,
        asking: Asking,
        key: Key,
    ) -> Result<ViewerAct, NoMemory>
        requires clear { self.old.asking ≡ None }
        ensures leads { IfOk result (λ act.
            LineLeads (line_reply_of (input_shut asking.line key)) asking.question
            (input_after asking.line key) (T.contents tree.old) act
            (record self.old { asking = Some asking }) self.new) }
        ensures still { LooksAtNothing
            (wanted_by_reply asking.question (line_reply_of (input_shut asking.line key))) self.old.viewer
            → tree.new ≡ tree.old }
        ensures lost { OnErr result (self.new ≡ record self.old { asking = Some asking }) }
        ensures reads { ReadsTree (λ (act : ViewerActType). act) result (T.contents tree.old)
            (T.contents tree.new) (T.fault_count tree.old) (T.fault_count tree.new) }
    {
        let _title = &self.title;
        let Asking { question, line } = asking;
        let mut line = line;
        let reply = type_in(alloc, &mut line, key);
        match reply {
            Ok(LineReply::Stays) => {
                self.asking = Some(Asking { question, line });
                Ok(ViewerAct::Stays)
            }
            Ok(LineReply::Shuts) => Ok(ViewerAct::Stays),
            Ok(LineReply::Takes(text)) => {
                self.answer(alloc, tree, Asking { question, line }, text)
            }
            Err(error) => {
                self.asking = Some(Asking { question, line });
                Err(error)
            }
        }
    }

    /// Follows an answer; one that wants nothing only shuts the line.
    fn answer<T: ReadTree>(
        &mut self,
        alloc: Global,
        tree: &mut T,
        asking: Asking,
        text: Text,
    ) -> Result<ViewerAct, NoMemory>
        requires clear { self.old.asking ≡ None }
        ensures leads { IfOk result (λ act.
            AnswerLeads (motion_asked_for asking.question text) (T.contents tree.old) act
            (record self.old { asking = Some asking }) self.new) }
        ensures still { LooksAtNothing (motion_asked_for asking.question text) self.old.viewer
            → tree.new ≡ tree.old }
        ensures lost { OnErr result (self.new ≡ record self.old { asking = Some asking }) }
        ensures reads { ReadsTree (λ (act : ViewerActType). act) result (T.contents tree.old)
            (T.contents tree.new) (T.fault_count tree.old) (T.fault_count tree.new) }
    {
        match motion_of(asking.question, text) {
            None => Ok(ViewerAct::Stays),
            Some(motion) => self.follow_answer(alloc, tree, asking, motion),
        }
    }

    /// Goes where an answer leads; where that is refused its line stays, so that it can be mended.
    fn follow_answer<T: ReadTree>(
        &mut self,
        alloc: Global,
        tree: &mut T,
        asking: Asking,
        motion: Motion,
    ) -> Result<ViewerAct, NoMemory>
        requires clear { self.old.asking ≡ None }
        ensures leads { IfOk result (λ act. MotionLeads motion (T.contents tree.old) act
            (record self.old { asking = Some asking }) self.new) }
        ensures still { LooksAtNothing (Some motion) self.old.viewer → tree.new ≡ tree.old }
        ensures lost { OnErr result (self.new ≡ record self.old { asking = Some asking }) }
        ensures reads { ReadsTree (λ (act : ViewerActType). act) result (T.contents tree.old)
            (T.contents tree.new) (T.fault_count tree.old) (T.fault_count tree.new) }
    {
        let _title = &self.title;
        let why = self.make(alloc, tree, motion);
        match why {
            Ok(None) => Ok(ViewerAct::Stays),
            Ok(Some(error)) => {
                self.asking = Some(asking);
                Ok(ViewerAct::Refused(error))
            }
            Err(error) => {
                self.asking = Some(asking);
                Err(error)
            }
        }
    }
}
