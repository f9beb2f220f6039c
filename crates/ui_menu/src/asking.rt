//! The line that asks for an answer.
ghost use Rattle.std.specs.Prelude.{◌≡◌, slice_get, IfOk, OnErr, OnOk};
ghost use Rattle.std.specs.Option.{option_map};
ghost use Rattle.mc_dialogs.specs.InputKeys.{input_after, input_shut};
ghost use Rattle.ui_words.specs.BoxKeys.{line_reply as line_reply_of};
ghost use Rattle.ui_menu.specs.Questions.{StaysWhereTaken, question_line, questions_in};

use crate::questions::question_at;
use key_screen::Key;
use mc_dialogs::InputLine;
use mc_text::{NoMemory, Text};
use percent_macros::Expanded;
use std::alloc::Global;
use std::convert::AsStr;
use ui_words::{LineReply, line_reply};

/// The line of the question at a position of a command, counted from 0, as it opens: its title is the
/// question, and its text is empty.
pub fn line_at(
    alloc: Global,
    expanded: &Expanded,
    position: usize,
) -> Result<Option<InputLine>, NoMemory>
    ensures { IfOk result (λ line. line
        ≡ option_map question_line (slice_get (questions_in expanded.now.pieces) position)) }
{
    let pieces = &expanded.pieces;
    match question_at(pieces.0.as_slice(), position) {
        None => Ok(None),
        Some(question) => Ok(Some(InputLine::new(alloc, question.as_str(), "")?)),
    }
}

/// Types a key into a line, which it leaves as it was where it takes its text.
pub fn type_in(alloc: Global, line: &mut InputLine, key: Key) -> Result<LineReply, NoMemory>
    ensures state { OnOk result (line.new ≡ input_after line.old key) }
    ensures reply { IfOk result (λ reply. reply ≡ line_reply_of (input_shut line.old key)) }
    ensures kept { IfOk result (λ reply. StaysWhereTaken reply line.old line.new) }
    ensures refused { OnErr result (line.new ≡ line.old) }
{
    Ok(line_reply(line.key(alloc, key)?))
}
