//! The question whether to save, before the editor is left.
ghost use Rattle.std.specs.Prelude.{◌≡◌, IfOk};
ghost use Rattle.ui_editor.specs.Questions.{leaving_lines as lines_of_leaving};
ghost use Rattle.ui_editor.specs.Questions.{leaving_reply as reply_by, leaving_reply_to as replies_to};

use key_screen::Key;
use mc_dialogs::{Reply, Shut, answer_by_letters};
use mc_text::{NoMemory, Rows, Text};
use std::alloc::Global;

/// What becomes of the question.
#[derive(Clone, Copy, Debug, Drop, PartialEq, Eq)]
pub enum LeavingReply {
    Stays,
    Shuts,
    /// The text is saved, and then the editor is left.
    Saves,
    /// The editor is left, and what isn't saved is lost.
    Leaves,
}

/// What a key makes of the question.
pub fn leaving_reply_to(key: Key) -> LeavingReply
    ensures { result ≡ replies_to key }
{
    leaving_reply(answer_by_letters(b"sdc", key))
}

fn leaving_reply(shut: Shut) -> LeavingReply
    ensures { result ≡ reply_by shut }
{
    match shut {
        Shut::Stay => LeavingReply::Stays,
        Shut::Closed(Reply::Letter(b's')) => LeavingReply::Saves,
        Shut::Closed(Reply::Letter(b'd')) => LeavingReply::Leaves,
        Shut::Closed(_) => LeavingReply::Shuts,
    }
}

/// The lines of the question's box.
pub fn leaving_lines(alloc: Global) -> Result<Rows, NoMemory>
    ensures { IfOk result (λ lines. lines ≡ lines_of_leaving) }
{
    let mut lines = Rows::new(alloc);
    lines.push(Text::from_str(alloc, "Save changes?")?)?;
    lines.push(Text::from_str(alloc, "s Save and leave  d Leave  c Stay")?)?;
    Ok(lines)
}
