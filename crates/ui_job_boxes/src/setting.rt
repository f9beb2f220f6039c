//! Keys while a mode is asked for.
ghost use Rattle.std.specs.Prelude.{◌≡◌, ◌<◌, false, OnErr, OnOk, IfOk};
ghost use Rattle.mc_dialogs.specs.ModeKeys.{mode_after, mode_shut};
ghost use Rattle.ui_words.specs.BoxKeys.{mode_reply as mode_reply_of};
ghost use Rattle.ui_plans.specs.Plans.{mode_plan};
ghost use Rattle.ui_job_boxes.specs.Lines.{StaysWhereGiven};
ghost use Rattle.ui_job_boxes.specs.Replies.{IsAllowed, IsFullAtMost, begun_alone};
ghost use Rattle.ui_job_boxes.specs.Replies.{mode_answer, reply_refusals, stays};

use crate::job_box::JobReply;
use crate::live_jobs::{full, none_live};
use job_reports::JobRows;
use key_screen::Key;
use mc_dialogs::ModeBox;
use mc_text::NoMemory;
use std::alloc::Global;
use ui_plans::mode_setting_of;
use ui_words::{Chosen, ModeReply, mode_reply};

/// A key while the mode of things is asked for.
pub(crate) fn key_in_mode(
    alloc: Global,
    rows: &JobRows,
    chosen: &Chosen,
    asked: &mut ModeBox,
    key: Key,
) -> Result<JobReply, NoMemory>
    ensures leads { IfOk result (λ reply.
        reply ≡ mode_answer rows.now chosen.now.paths (mode_reply_of (mode_shut asked.old key))) }
    ensures state { OnOk result (asked.new ≡ mode_after asked.old key) }
    ensures kept { IfOk result (λ reply. stays reply ≡ false → asked.new ≡ asked.old) }
    ensures lost { OnErr result (asked.new ≡ asked.old) }
    ensures allowed { IfOk result (IsAllowed rows.now) }
    ensures untold { IfOk result (λ reply. IsFullAtMost (reply_refusals reply)) }
{
    match type_mode(asked, key) {
        ModeReply::Stays => Ok(JobReply::Stays),
        ModeReply::Shuts => Ok(JobReply::Shuts),
        ModeReply::Takes(mode) => confirm_mode(alloc, rows, chosen, mode),
    }
}

/// The mode is confirmed, which it can be while no job is live.
fn confirm_mode(
    alloc: Global,
    rows: &JobRows,
    chosen: &Chosen,
    mode: u16,
) -> Result<JobReply, NoMemory>
    requires twelve_bits { mode < 4096 }
    ensures leads { IfOk result (λ reply. reply ≡ begun_alone rows.now (mode_plan chosen.now.paths mode)) }
    ensures allowed { IfOk result (IsAllowed rows.now) }
    ensures untold { IfOk result (λ reply. IsFullAtMost (reply_refusals reply)) }
{
    if !none_live(rows) {
        return Ok(full());
    }
    Ok(JobReply::Begins(mode_setting_of(alloc, chosen, mode)?))
}

/// Types a key into a mode box, which stays as it was where it gives its mode.
fn type_mode(asked: &mut ModeBox, key: Key) -> ModeReply
    ensures state { asked.new ≡ mode_after asked.old key }
    ensures reply { result ≡ mode_reply_of (mode_shut asked.old key) }
    ensures kept { StaysWhereGiven result asked.old asked.new }
{
    match asked.key(key) {
        Ok(shut) => mode_reply(shut),
        Err(_) => unreachable!(),
    }
}
