//! Keys while something asks. It was taken out, and is put back where it stays.
ghost use Rattle.std.specs.Prelude.{◌≡◌, true, None, Some, IfOk, OnErr};
ghost use Rattle.ui_words.specs.BoxKeys.{line_reply as line_reply_of};
ghost use Rattle.mc_dialogs.specs.InputKeys.{input_after, input_shut};
ghost use Rattle.ui_editor.specs.EditorScreens.{AnswerLeads, AskingLeads, EditLeads};
ghost use Rattle.ui_editor.specs.EditorScreens.{LeavingLeads, LineLeads, SaveLeads, with_asked};
ghost use Rattle.ui_editor.specs.Questions.{answer_of as answer_to, asks, leaving_reply_to as replies_to};

use super::EditorMode;
use crate::act::{EditorAct, EditorAsks};
use crate::answer::{Answer, answer_of};
use crate::asking::{AskedLine, Asking, Question, type_in};
use crate::leaving::{LeavingReply, leaving_reply_to};
use crate::saving::Saving;
use key_screen::Key;
use mc_edit::EditCmd;
use mc_text::{NoMemory, Text};
use std::alloc::Global;
use ui_words::LineReply;

impl EditorMode {
    /// A key while something asks.
    pub(super) fn key_in_asking(
        &mut self,
        alloc: Global,
        asking: Asking,
        key: Key,
    ) -> Result<EditorAct, NoMemory>
        requires clear { self.old.asking ≡ None }
        ensures leads { IfOk result (λ act.
            AskingLeads asking key act (record self.old { asking = Some asking }) self.new) }
        ensures lost { OnErr result (self.new ≡ record self.old { asking = Some asking }) }
    {
        match asking {
            Asking::Text(asked) => self.key_in_line(alloc, asked, key),
            Asking::Leaving => self.key_in_question(alloc, key),
        }
    }

    /// A key while a line asks.
    fn key_in_line(
        &mut self,
        alloc: Global,
        asked: AskedLine,
        key: Key,
    ) -> Result<EditorAct, NoMemory>
        requires clear { self.old.asking ≡ None }
        ensures leads { IfOk result (λ act.
            LineLeads (line_reply_of (input_shut asked.line key)) asked.question
            (input_after asked.line key) act (with_asked asked self.old) self.new) }
        ensures lost { OnErr result (self.new ≡ with_asked asked self.old) }
    {
        let _title = &self.title;
        let AskedLine { question, line } = asked;
        let mut line = line;
        let reply = type_in(alloc, &mut line, key);
        match reply {
            Ok(LineReply::Stays) => {
                self.asking = Some(Asking::Text(AskedLine { question, line }));
                Ok(EditorAct::Stays)
            }
            Ok(LineReply::Shuts) => Ok(EditorAct::Stays),
            Ok(LineReply::Takes(text)) => self.answer(alloc, AskedLine { question, line }, text),
            Err(error) => {
                self.asking = Some(Asking::Text(AskedLine { question, line }));
                Err(error)
            }
        }
    }

    /// Follows a text that answers a question.
    fn answer(&mut self, alloc: Global, asked: AskedLine, text: Text) -> Result<EditorAct, NoMemory>
        requires clear { self.old.asking ≡ None }
        ensures leads { IfOk result (λ act.
            AnswerLeads (answer_to asked.question text) act (with_asked asked self.old) self.new) }
        ensures lost { OnErr result (self.new ≡ with_asked asked self.old) }
    {
        let _title = &self.title;
        let answer = answer_of(alloc, &asked.question, text);
        match answer {
            Ok(Answer::Ask(question)) => self.ask_on(alloc, asked, question),
            Ok(Answer::Edit(command)) => self.edit_by_answer(alloc, asked, &command),
            Ok(Answer::Nothing) => Ok(EditorAct::Stays),
            Err(error) => {
                self.asking = Some(Asking::Text(asked));
                Err(error)
            }
        }
    }

    /// Asks another question in place of the one that was answered, which stays where memory is wanting.
    fn ask_on(
        &mut self,
        alloc: Global,
        asked: AskedLine,
        question: Question,
    ) -> Result<EditorAct, NoMemory>
        requires clear { self.old.asking ≡ None }
        ensures act { IfOk result (λ act. act ≡ EditorAct.Stays) }
        ensures line { IfOk result (λ _act. self.new ≡ with_asked (asks question) self.old) }
        ensures lost { OnErr result (self.new ≡ with_asked asked self.old) }
    {
        let _title = &self.title;
        let opened = self.open_line(alloc, question);
        match opened {
            Ok(act) => Ok(act),
            Err(error) => {
                self.asking = Some(Asking::Text(asked));
                Err(error)
            }
        }
    }

    /// Carries out what an answer asks of the text; where that is refused its line stays,
    /// so that it can be mended.
    fn edit_by_answer(
        &mut self,
        alloc: Global,
        asked: AskedLine,
        command: &EditCmd,
    ) -> Result<EditorAct, NoMemory>
        requires clear { self.old.asking ≡ None }
        ensures leads { IfOk result (λ act. EditLeads command.now act (with_asked asked self.old) self.new) }
        ensures lost { OnErr result (self.new ≡ with_asked asked self.old) }
    {
        let _title = &self.title;
        let act = self.edit(alloc, command);
        match act {
            Ok(EditorAct::Refused(error)) => {
                self.asking = Some(Asking::Text(asked));
                Ok(EditorAct::Refused(error))
            }
            Ok(act) => Ok(act),
            Err(error) => {
                self.asking = Some(Asking::Text(asked));
                Err(error)
            }
        }
    }

    /// A key while it is asked whether to save.
    fn key_in_question(&mut self, alloc: Global, key: Key) -> Result<EditorAct, NoMemory>
        requires clear { self.old.asking ≡ None }
        ensures leads { IfOk result (λ act.
            LeavingLeads (replies_to key) act (record self.old { asking = Some Asking.Leaving }) self.new) }
        ensures lost { OnErr result (self.new ≡ record self.old { asking = Some Asking.Leaving }) }
    {
        let _title = &self.title;
        match leaving_reply_to(key) {
            LeavingReply::Stays => {
                self.asking = Some(Asking::Leaving);
                Ok(EditorAct::Stays)
            }
            LeavingReply::Shuts => Ok(EditorAct::Stays),
            LeavingReply::Saves => self.save_and_leave(alloc),
            LeavingReply::Leaves => Ok(EditorAct::Asks(EditorAsks::Leave)),
        }
    }

    /// Asks for a save after which the editor is left. Where memory is wanting the question stays.
    fn save_and_leave(&mut self, alloc: Global) -> Result<EditorAct, NoMemory>
        requires clear { self.old.asking ≡ None }
        ensures leads { IfOk result (λ act. SaveLeads self.old.saving (record { leaves = true }) act
            (record self.old { asking = Some Asking.Leaving }) self.new) }
        ensures lost { OnErr result (self.new ≡ record self.old { asking = Some Asking.Leaving }) }
    {
        let _title = &self.title;
        let act = self.ask_for_save(alloc, Saving { leaves: true });
        match act {
            Ok(act) => Ok(act),
            Err(error) => {
                self.asking = Some(Asking::Leaving);
                Err(error)
            }
        }
    }
}
