//! The prompts of a command, asked one after the other.
ghost use Rattle.std.specs.Prelude.{◌≡◌, ◌++◌, ◌∷◌, [], ◌<◌, None, IfOk, OnErr, OnOk};
ghost use Rattle.mc_dialogs.specs.InputField.{with_input};
ghost use Rattle.percent_macros.specs.Commands.{prompts_in};
ghost use Rattle.ui_menu.specs.Commands.{command_of};
ghost use Rattle.ui_menu.specs.Prompting.{next_act, next_prompts, next_question, prompt_act, prompts_after};

use crate::act::PromptAct;
use crate::asking::{line_at, type_in};
use crate::command::{Command, answered};
use key_screen::{Grid, Key};
use mc_dialogs::InputLine;
use mc_text::{NoMemory, Path, Text, Texts};
use percent_macros::Expanded;
use std::alloc::Global;
use std::marker::Model;
use ui_words::LineReply;

/// A command whose macros are expanded, and whose prompts are asked one after the other: what was answered
/// so far, and the line that asks for the next answer. Once it was answered whole, or dropped, it is let go
/// of.
#[derive(Debug, Drop)]
pub struct Prompts {
    expanded: Expanded,
    folder: Path,
    answers: Texts,
    line: InputLine,
}

impl Model for Prompts {
    ghost use Rattle.std.specs.Prelude.{◌<◌, length};
    ghost use Rattle.percent_macros.specs.Commands.{prompts_in};
    ghost use Rattle.ui_menu.specs.PromptStates.{PromptsState};

    ghost Value = { PromptsState };

    ghost view = { λ p. record {
      expanded = p.expanded;
      folder = p.folder;
      answers = p.answers;
      line = p.line;
    } };

    ghost invariant = { λ p. length p.answers < prompts_in p.expanded.pieces };
}

impl Prompts {
    /// A command of which no prompt is answered yet, with the line that asks the first one. It takes no
    /// memory.
    pub fn new(alloc: Global, expanded: Expanded, folder: Path, line: InputLine) -> Prompts
        requires { 0 < prompts_in expanded.pieces }
        ensures { result ≡ record { expanded = expanded; folder = folder; answers = []; line = line } }
    {
        Prompts {
            expanded,
            folder,
            answers: Texts::new(alloc),
            line,
        }
    }

    /// Works a key. Without memory all stays as it was.
    pub fn key(&mut self, alloc: Global, key: Key) -> Result<PromptAct, NoMemory>
        ensures act { IfOk result (λ act. act ≡ prompt_act self.old key) }
        ensures state { OnOk result (self.new ≡ prompts_after self.old key) }
        ensures lost { OnErr result (self.new ≡ self.old) }
    {
        let _folder = &self.folder;
        match type_in(alloc, &mut self.line, key)? {
            LineReply::Stays => Ok(PromptAct::Stays),
            LineReply::Shuts => Ok(PromptAct::Cancels),
            LineReply::Takes(text) => self.answer(alloc, text),
        }
    }

    /// The prompt is answered: the next one is asked, or the command is whole.
    fn answer(&mut self, alloc: Global, text: Text) -> Result<PromptAct, NoMemory>
        ensures act { IfOk result (λ act. act ≡ next_act (next_question self.old) self.old text) }
        ensures state { OnOk result (self.new ≡ next_prompts (next_question self.old) self.old text) }
        ensures lost { OnErr result (self.new ≡ self.old) }
    {
        let position = self.answers.as_slice().len() + 1;
        match line_at(alloc, &self.expanded, position)? {
            Some(line) => {
                self.answers.push(text)?;
                self.line = line;
                Ok(PromptAct::Stays)
            }
            None => Ok(PromptAct::Runs(self.command(alloc, text)?)),
        }
    }

    /// The command with its last answer.
    fn command(&self, alloc: Global, text: Text) -> Result<Command, NoMemory>
        requires { next_question self.now ≡ None }
        ensures { IfOk result (λ command.
            command ≡ command_of self.now.expanded (self.now.answers ++ text ∷ []) self.now.folder) }
    {
        let mut answers = self.answers.copy(alloc)?;
        answers.push(text)?;
        answered(alloc, &self.expanded, &answers, &self.folder)
    }

    /// Paints the line that asks over a screen. Where memory is wanting, a part of it may stand.
    pub fn paint(&self, alloc: Global, grid: &mut Grid) -> Result<(), NoMemory>
        ensures { OnOk result (grid.new ≡ with_input grid.old self.now.line) }
    {
        self.line.paint(alloc, grid)
    }
}
