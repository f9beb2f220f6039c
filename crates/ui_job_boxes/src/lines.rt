//! Keys in the lines behind which another one is asked for: the source mask, and what a link is to say.
ghost use Rattle.std.specs.Prelude.{◌≡◌, false, OnErr, OnOk, IfOk};
ghost use Rattle.mc_dialogs.specs.InputKeys.{input_after, input_shut};
ghost use Rattle.ui_words.specs.BoxKeys.{line_reply as line_reply_of};
ghost use Rattle.ui_words.specs.BoxLines.{target_line as target_line_of};
ghost use Rattle.ui_job_boxes.specs.JobBoxes.{TargetBox, seen_job_box};
ghost use Rattle.ui_job_boxes.specs.Lines.{StaysWhereTaken};
ghost use Rattle.ui_job_boxes.specs.Replies.{AsksNothing, LinkTextLeads, MaskLeads, stays};

use crate::job_box::{JobBox, JobReply, MaskedSource};
use key_screen::Key;
use mc_dialogs::InputLine;
use mc_text::{NoMemory, Path, Text};
use std::alloc::Global;
use ui_words::{Carry, Chosen, LineReply, line_reply, link_name_line, target_line};

/// A key while the source mask is asked for, and the other panel shows this folder.
pub(crate) fn key_in_mask(
    alloc: Global,
    other: &Path,
    carry: Carry,
    chosen: &Chosen,
    line: &mut InputLine,
    key: Key,
) -> Result<JobReply, NoMemory>
    ensures leads { IfOk result
        (MaskLeads (line_reply_of (input_shut line.old key)) carry chosen.now.paths other.now) }
    ensures state { OnOk result (line.new ≡ input_after line.old key) }
    ensures kept { IfOk result (λ reply. stays reply ≡ false → line.new ≡ line.old) }
    ensures lost { OnErr result (line.new ≡ line.old) }
    ensures quiet { IfOk result AsksNothing }
{
    match type_in(alloc, line, key)? {
        LineReply::Stays => Ok(JobReply::Stays),
        LineReply::Shuts => Ok(JobReply::Shuts),
        LineReply::Takes(text) => {
            let asked = ask_target(alloc, other, carry, chosen, text)?;
            Ok(JobReply::Opens(asked))
        }
    }
}

/// The box that asks for the destination, at first the folder of the other panel.
fn ask_target(
    alloc: Global,
    other: &Path,
    carry: Carry,
    chosen: &Chosen,
    mask: Text,
) -> Result<JobBox, NoMemory>
    ensures { IfOk result
        (λ asks. seen_job_box asks ≡ TargetBox carry chosen.now.paths mask (target_line_of carry other.now)) }
{
    let line = target_line(alloc, carry, other)?;
    let chosen = Chosen {
        paths: chosen.paths.copy(alloc)?,
    };
    let source = MaskedSource {
        carry,
        chosen,
        mask,
    };
    Ok(JobBox::CarryTo(source, line))
}

/// A key while it is asked what a new link is to say.
pub(crate) fn key_in_link_text(
    alloc: Global,
    line: &mut InputLine,
    key: Key,
) -> Result<JobReply, NoMemory>
    ensures leads { IfOk result (LinkTextLeads (line_reply_of (input_shut line.old key))) }
    ensures state { OnOk result (line.new ≡ input_after line.old key) }
    ensures kept { IfOk result (λ reply. stays reply ≡ false → line.new ≡ line.old) }
    ensures lost { OnErr result (line.new ≡ line.old) }
    ensures quiet { IfOk result AsksNothing }
{
    match type_in(alloc, line, key)? {
        LineReply::Stays => Ok(JobReply::Stays),
        LineReply::Shuts => Ok(JobReply::Shuts),
        LineReply::Takes(text) => {
            let asked = link_name_line(alloc)?;
            Ok(JobReply::Opens(JobBox::LinkName(text, asked)))
        }
    }
}

/// Types a key into a line, which it leaves as it was where it shuts it or takes its text.
pub(crate) fn type_in(alloc: Global, line: &mut InputLine, key: Key) -> Result<LineReply, NoMemory>
    ensures state { OnOk result (line.new ≡ input_after line.old key) }
    ensures reply { IfOk result (λ reply. reply ≡ line_reply_of (input_shut line.old key)) }
    ensures kept { IfOk result (λ reply. StaysWhereTaken reply line.old line.new) }
    ensures refused { OnErr result (line.new ≡ line.old) }
{
    Ok(line_reply(line.key(alloc, key)?))
}
