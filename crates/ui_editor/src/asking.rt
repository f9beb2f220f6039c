//! What asks over a text that is edited.
ghost use Rattle.std.specs.Prelude.{◌≡◌, IfOk, OnOk, OnErr};
ghost use Rattle.ui_words.specs.BoxKeys.{line_reply as line_reply_of};
ghost use Rattle.mc_dialogs.specs.InputKeys.{input_after, input_shut};
ghost use Rattle.ui_viewer.specs.Questions.{StaysWhereTaken};
ghost use Rattle.ui_editor.specs.Questions.{asks, title_of};

use key_screen::Key;
use mc_dialogs::InputLine;
use mc_text::{Bytes, NoMemory};
use std::alloc::Global;
use ui_words::{LineReply, line_reply};

/// What is asked for in a line.
#[derive(Debug, Drop)]
pub enum Question {
    /// The number of a line.
    Line,
    /// A text that is to be replaced.
    Replace,
    /// What these bytes are to be replaced with.
    ReplaceWith(Bytes),
    /// A text to search for.
    Search,
}

/// A question, and the line in which it is answered.
#[derive(Debug, Drop)]
pub struct AskedLine {
    pub question: Question,
    pub line: InputLine,
}

/// What asks over a text.
#[derive(Debug, Drop)]
pub enum Asking {
    /// A line asks for a text.
    Text(AskedLine),
    /// It is asked whether to save, before the editor is left.
    Leaving,
}

/// A question as its line opens.
pub fn ask(alloc: Global, question: Question) -> Result<AskedLine, NoMemory>
    ensures { IfOk result (λ asked. asked ≡ asks question) }
{
    let line = InputLine::new(alloc, title_of(&question), "")?;
    Ok(AskedLine { question, line })
}

/// The title of a question's line.
fn title_of(question: &Question) -> &'static str
    ensures { result.now ≡ title_of question.now }
{
    match question {
        Question::Line => "Line",
        Question::Replace => "Replace",
        Question::ReplaceWith(_) => "Replace with",
        Question::Search => "Search",
    }
}

/// Types a key into a line, which it leaves as it was where it takes its text.
pub fn type_in(alloc: Global, line: &mut InputLine, key: Key) -> Result<LineReply, NoMemory>
    ensures state { OnOk result (line.new ≡ input_after line.old key) }
    ensures reply { IfOk result (λ reply. reply ≡ line_reply_of (input_shut line.old key)) }
    ensures kept { IfOk result (λ reply. StaysWhereTaken reply line.old line.new) }
    ensures refused { OnErr result (line.new ≡ line.old) }
{
    Ok(line_reply(line.key(alloc, key)?))
}
