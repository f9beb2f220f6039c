//! Keys while nothing asks.
ghost use Rattle.std.specs.Prelude.{◌≡◌, None, IfOk, OnErr};
ghost use Rattle.ui_editor.specs.EditorKeys.{editor_command as command_of_key, page_of as rows_of};
ghost use Rattle.ui_editor.specs.EditorScreens.{CommandLeads, EditLeads, LeaveLeads, has_changes, with_asked};
ghost use Rattle.ui_editor.specs.Questions.{asks};

use super::EditorMode;
use crate::act::{EditorAct, EditorAsks};
use crate::asking::{Asking, Question, ask};
use crate::command::{EditorCommand, editor_command};
use crate::saving::Saving;
use key_screen::Key;
use mc_edit::{EditCmd, EditError};
use mc_text::NoMemory;
use std::alloc::Global;

impl EditorMode {
    /// A key while nothing asks: each command is a row.
    pub(super) fn key_in_text(&mut self, alloc: Global, key: Key) -> Result<EditorAct, NoMemory>
        requires clear { self.old.asking ≡ None }
        ensures leads { IfOk result (λ act.
            CommandLeads (command_of_key (rows_of self.old.lines) key) act self.old self.new) }
        ensures lost { OnErr result (self.new ≡ self.old) }
    {
        let page = self.page();
        match editor_command(page, key) {
            EditorCommand::Edit(command) => self.edit(alloc, &command),
            EditorCommand::Ask(question) => self.open_line(alloc, question),
            EditorCommand::Save => self.ask_for_save(alloc, Saving { leaves: false }),
            EditorCommand::Leave => Ok(self.leave()),
            EditorCommand::Nothing => Ok(EditorAct::Stays),
        }
    }

    /// How many rows a page has.
    fn page(&self) -> u16
        ensures { result ≡ rows_of self.now.lines }
    {
        self.lines.saturating_sub(2)
    }

    /// Carries a command of the text out, while no line asks; where it is refused a message says why.
    pub(super) fn edit(&mut self, alloc: Global, command: &EditCmd) -> Result<EditorAct, NoMemory>
        requires clear { self.old.asking ≡ None }
        ensures leads { IfOk result (λ act. EditLeads command.now act self.old self.new) }
        ensures lost { OnErr result (self.new ≡ self.old) }
    {
        let _title = &self.title;
        match self.editor.command(alloc, command) {
            Ok(()) => Ok(EditorAct::Stays),
            Err(EditError::Memory) => Err(NoMemory),
            Err(error) => {
                self.refused = Some(error);
                Ok(EditorAct::Refused(error))
            }
        }
    }

    /// Opens the line that asks a question.
    pub(super) fn open_line(
        &mut self,
        alloc: Global,
        question: Question,
    ) -> Result<EditorAct, NoMemory>
        ensures act { IfOk result (λ act. act ≡ EditorAct.Stays) }
        ensures line { IfOk result (λ _act. self.new ≡ with_asked (asks question) self.old) }
        ensures lost { OnErr result (self.new ≡ self.old) }
    {
        let _title = &self.title;
        let asked = ask(alloc, question)?;
        self.asking = Some(Asking::Text(asked));
        Ok(EditorAct::Stays)
    }

    /// Leaves the editor, or asks whether to save before, where changes aren't saved.
    fn leave(&mut self) -> EditorAct
        requires clear { self.old.asking ≡ None }
        ensures { LeaveLeads (has_changes self.old) result self.old self.new }
    {
        if self.has_changes() {
            self.asking = Some(Asking::Leaving);
            return EditorAct::Stays;
        }
        EditorAct::Asks(EditorAsks::Leave)
    }
}
