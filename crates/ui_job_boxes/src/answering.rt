//! Keys while it is told what a job waits with.
ghost use Rattle.std.specs.Prelude.{◌≡◌, []};
ghost use Rattle.ui_words.specs.BoxKeys.{answer_reply_to as answers_by};
ghost use Rattle.ui_job_boxes.specs.Replies.{IsAllowed, given_answer, reply_refusals};

use crate::job_box::JobReply;
use crate::live_jobs::can_answer;
use job_reports::{Answer, JobRows, Waits};
use key_screen::Key;
use ui_words::{AnswerReply, answer_reply_to};

/// A key while it is told what a job waits with.
pub(crate) fn key_in_answer(rows: &JobRows, waits: &Waits, key: Key) -> JobReply
    ensures leads { result ≡ given_answer rows.now (answers_by waits.now key) }
    ensures allowed { IsAllowed rows.now result }
    ensures untold { reply_refusals result ≡ [] }
{
    match answer_reply_to(waits, key) {
        AnswerReply::Stays => JobReply::Stays,
        AnswerReply::Shuts => JobReply::Shuts,
        AnswerReply::Gives(answer) => give(rows, answer),
    }
}

/// A letter that answers, if the live job can be answered so.
fn give(rows: &JobRows, answer: Answer) -> JobReply
    ensures leads { result ≡ given_answer rows.now (AnswerReply.Gives answer) }
    ensures allowed { IsAllowed rows.now result }
    ensures untold { reply_refusals result ≡ [] }
{
    if can_answer(rows, answer) {
        return JobReply::Answers(answer);
    }
    JobReply::Stays
}
