//! The line that asks over a page.
ghost use Rattle.std.specs.Prelude.{◌≡◌, IfOk, OnOk, OnErr};
ghost use Rattle.ui_words.specs.BoxKeys.{line_reply as line_reply_of};
ghost use Rattle.mc_dialogs.specs.InputKeys.{input_after, input_shut};
ghost use Rattle.ui_viewer.specs.Questions.{StaysWhereTaken, opened_line};
ghost use Rattle.ui_viewer.specs.Questions.{place_question as question_of_place, title_of};

use key_screen::Key;
use mc_dialogs::InputLine;
use mc_text::NoMemory;
use std::alloc::Global;
use ui_words::{LineReply, line_reply};

/// What is asked for.
#[derive(Clone, Copy, Debug, Drop, PartialEq, Eq)]
pub enum Question {
    /// The number of a line.
    Line,
    /// The place of a byte.
    Byte,
    /// A text to search for.
    PlainText,
    /// A regular expression to search for.
    Expression,
}

/// A question, and the line in which it is answered.
#[derive(Debug, Drop)]
pub struct Asking {
    pub question: Question,
    pub line: InputLine,
}

/// Which place is asked for: a line while text is shown, and a byte while rows in hexadecimal are.
pub fn place_question(is_hex: bool) -> Question
    ensures { result ≡ question_of_place is_hex }
{
    if is_hex {
        Question::Byte
    } else {
        Question::Line
    }
}

/// A question as its line opens.
pub fn ask(alloc: Global, question: Question) -> Result<Asking, NoMemory>
    ensures { IfOk result (λ asking. asking ≡ record { question = question; line = opened_line question }) }
{
    let line = InputLine::new(alloc, title_of(question), "")?;
    Ok(Asking { question, line })
}

/// The title of a question's line.
fn title_of(question: Question) -> &'static str
    ensures { result.now ≡ title_of question }
{
    match question {
        Question::Line => "Line",
        Question::Byte => "Byte",
        Question::PlainText => "Search",
        Question::Expression => "Regular expression",
    }
}

/// Types a key into a line, which it leaves as it was where it takes its text.
pub fn type_in(alloc: Global, line: &mut InputLine, key: Key) -> Result<LineReply, NoMemory>
    ensures state { OnOk result (line.new ≡ input_after line.old key) }
    ensures reply { IfOk result (λ reply. reply ≡ line_reply_of (input_shut line.old key)) }
    ensures kept { IfOk result (λ reply. StaysWhereTaken reply line.old line.new) }
    ensures refused { OnErr result (line.new ≡ line.old) }
{
    Ok(line_reply(line.key(alloc, key)?))
}
