//! What the live jobs allow.
ghost use Rattle.std.specs.Prelude.{◌≡◌};
ghost use Rattle.ui_job_boxes.specs.LiveJobs.{can_answer as may_answer, none_live as is_idle};
ghost use Rattle.ui_job_boxes.specs.LiveJobs.{row_waiting, takes_answer as may_take};

use crate::job_box::JobReply;
use job_answers::{Waiting, then_after, waiting_in};
use job_reports::{Answer, JobRow, JobRows, JobState};
use session_entries::{BeginError, Refusal};

/// Whether no job is live.
pub(crate) fn none_live(rows: &JobRows) -> bool
    ensures { result ≡ is_idle rows.now }
{
    rows.0.is_empty()
}

/// That as many jobs are live as may be.
pub(crate) fn full() -> JobReply
    ensures { result ≡ JobReply.Refuses (Refusal.Begin BeginError.Full) }
{
    JobReply::Refuses(Refusal::Begin(BeginError::Full))
}

/// Whether the live job can be answered so.
pub(crate) fn can_answer(rows: &JobRows, answer: Answer) -> bool
    ensures { result ≡ may_answer rows.now answer }
{
    match rows.0.as_slice() {
        [] => false,
        [row, ..] => takes_answer(row, answer),
    }
}

/// Whether a job waits with what can be answered so.
fn takes_answer(row: &JobRow, answer: Answer) -> bool
    ensures { result ≡ may_take row.now answer }
{
    then_after(waiting_of(row), answer).is_ok()
}

/// What a job waits with.
fn waiting_of(row: &JobRow) -> Option<Waiting>
    ensures { result ≡ row_waiting row.now }
{
    match (row.state, &row.asked, &row.trouble) {
        (JobState::Asking, Some(_), _) => Some(Waiting::Question),
        (JobState::Troubled, _, Some(trouble)) => Some(waiting_in(trouble)),
        _ => None,
    }
}
