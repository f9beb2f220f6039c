//! The lines that ask for what is sought, one after the other.
ghost use Rattle.std.specs.Prelude.{◌≡◌, IfOk, OnOk, OnErr};
ghost use Rattle.ui_words.specs.BoxKeys.{line_reply as line_reply_of};
ghost use Rattle.mc_dialogs.specs.InputKeys.{input_after, input_shut};
ghost use Rattle.ui_find.specs.Questions.{StaysWhereTaken, content_line as content_line_of};
ghost use Rattle.ui_find.specs.Questions.{names_line as names_line_of, start_line as start_line_of};

use key_screen::Key;
use mc_dialogs::InputLine;
use mc_text::{NoMemory, Path};
use std::alloc::Global;
use tagging::Pattern;
use ui_words::{LineReply, line_reply};

/// What is asked for, with what is known by then.
#[derive(Debug, Drop)]
pub enum Asked {
    /// Where the search starts.
    Start,
    /// Which names are sought below this start.
    Names(Path),
    /// What a file of such a name has to hold; an empty text asks for nothing.
    Content(Path, Pattern),
}

/// What is asked for, and the line in which it is answered.
#[derive(Debug, Drop)]
pub struct Asking {
    pub asked: Asked,
    pub line: InputLine,
}

/// The line that asks for the start as it opens.
pub fn start_line(alloc: Global) -> Result<InputLine, NoMemory>
    ensures { IfOk result (λ line. line ≡ start_line_of) }
{
    InputLine::new(alloc, "Find from", ".")
}

/// The line that asks for the names as it opens.
pub fn names_line(alloc: Global) -> Result<InputLine, NoMemory>
    ensures { IfOk result (λ line. line ≡ names_line_of) }
{
    InputLine::new(alloc, "Name pattern", "*")
}

/// The line that asks for the content as it opens.
pub fn content_line(alloc: Global) -> Result<InputLine, NoMemory>
    ensures { IfOk result (λ line. line ≡ content_line_of) }
{
    InputLine::new(alloc, "Content", "")
}

/// Types a key into a line, which it leaves as it was where it takes its text.
pub fn type_in(alloc: Global, line: &mut InputLine, key: Key) -> Result<LineReply, NoMemory>
    ensures state { OnOk result (line.new ≡ input_after line.old key) }
    ensures reply { IfOk result (λ reply. reply ≡ line_reply_of (input_shut line.old key)) }
    ensures kept { IfOk result (λ reply. StaysWhereTaken reply line.old line.new) }
    ensures refused { OnErr result (line.new ≡ line.old) }
{
    Ok(line_reply(line.key(alloc, key)?))
}
