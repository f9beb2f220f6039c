//! What comes of a text that answers a question.
ghost use Rattle.std.specs.Prelude.{◌≡◌, IfOk};
ghost use Rattle.ui_editor.specs.Questions.{answer_of as answer_to, to_line as answer_by_line};

use crate::asking::Question;
use crate::number::number_in;
use mc_edit::EditCmd;
use mc_text::{Bytes, NoMemory, Text};
use std::alloc::Global;
use std::convert::AsStr;

/// What comes of an answer.
#[derive(Debug, Drop)]
pub enum Answer {
    /// Another question.
    Ask(Question),
    /// A command of the text.
    Edit(EditCmd),
    Nothing,
}

/// What comes of a text that answers a question: nothing where a line is asked for, and it
/// is no number of 64 bits.
pub fn answer_of(alloc: Global, question: &Question, text: Text) -> Result<Answer, NoMemory>
    ensures { IfOk result (λ answer. answer ≡ answer_to question.now text) }
{
    match question {
        Question::Line => Ok(to_line(number_in(text.as_str()))),
        Question::Replace => Ok(Answer::Ask(Question::ReplaceWith(bytes_of(text)))),
        Question::ReplaceWith(what) => {
            let what = what.copy(alloc)?;
            Ok(Answer::Edit(EditCmd::ReplaceAll(what, bytes_of(text))))
        }
        Question::Search => Ok(Answer::Edit(EditCmd::Find(bytes_of(text)))),
    }
}

/// To a line, where one was typed.
fn to_line(line: Option<u64>) -> Answer
    ensures { result ≡ answer_by_line line }
{
    match line {
        Some(line) => Answer::Edit(EditCmd::GoLine(line)),
        None => Answer::Nothing,
    }
}

/// The bytes of a text.
fn bytes_of(text: Text) -> Bytes
    ensures { result ≡ text }
{
    let Text(text) = text;
    Bytes(text.into_bytes())
}
