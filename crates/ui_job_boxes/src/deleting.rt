//! Keys while it is asked whether to delete things.
ghost use Rattle.std.specs.Prelude.{◌≡◌, IfOk};
ghost use Rattle.ui_words.specs.BoxKeys.{delete_reply_to as deletes_by};
ghost use Rattle.ui_plans.specs.Plans.{delete_plan};
ghost use Rattle.ui_job_boxes.specs.Replies.{IsAllowed, IsFullAtMost, begun_alone};
ghost use Rattle.ui_job_boxes.specs.Replies.{delete_answer, reply_refusals};

use crate::job_box::JobReply;
use crate::live_jobs::{full, none_live};
use job_reports::JobRows;
use key_screen::Key;
use mc_text::NoMemory;
use std::alloc::Global;
use ui_plans::deletion_of;
use ui_words::{Chosen, DeleteReply, delete_reply_to};

/// A key while it is asked whether to delete things.
pub(crate) fn key_in_delete(
    alloc: Global,
    rows: &JobRows,
    chosen: &Chosen,
    key: Key,
) -> Result<JobReply, NoMemory>
    ensures leads { IfOk result (λ reply. reply ≡ delete_answer rows.now chosen.now.paths (deletes_by key)) }
    ensures allowed { IfOk result (IsAllowed rows.now) }
    ensures untold { IfOk result (λ reply. IsFullAtMost (reply_refusals reply)) }
{
    match delete_reply_to(key) {
        DeleteReply::Stays => Ok(JobReply::Stays),
        DeleteReply::Shuts => Ok(JobReply::Shuts),
        DeleteReply::Deletes => confirm_deletion(alloc, rows, chosen),
    }
}

/// The deletion is confirmed, which it can be while no job is live.
fn confirm_deletion(alloc: Global, rows: &JobRows, chosen: &Chosen) -> Result<JobReply, NoMemory>
    ensures leads { IfOk result (λ reply. reply ≡ begun_alone rows.now (delete_plan chosen.now.paths)) }
    ensures allowed { IfOk result (IsAllowed rows.now) }
    ensures untold { IfOk result (λ reply. IsFullAtMost (reply_refusals reply)) }
{
    if !none_live(rows) {
        return Ok(full());
    }
    Ok(JobReply::Begins(deletion_of(alloc, chosen)?))
}
