//! Keys in the lines by whose text a job is planned: the destination of what is copied or moved, a new
//! folder's path, the name of a new link.
ghost use Rattle.std.specs.Prelude.{◌≡◌, [], false, OnErr, OnOk, IfOk};
ghost use Rattle.mc_dialogs.specs.InputKeys.{input_after, input_shut};
ghost use Rattle.ui_words.specs.BoxKeys.{line_reply as line_reply_of};
ghost use Rattle.ui_plans.specs.Choices.{plan_refusals};
ghost use Rattle.ui_plans.specs.Reading.{ReadsTree};
ghost use Rattle.ui_job_boxes.specs.JobBoxes.{seen_around};
ghost use Rattle.ui_job_boxes.specs.Plans.{PlansBy, PlansAt};
ghost use Rattle.ui_job_boxes.specs.Replies.{IsAllowed, IsPlanned, PathLeads};
ghost use Rattle.ui_job_boxes.specs.Replies.{PlansAlone, reply_refusals, stays};

use crate::job_box::{JobReply, Surroundings};
use crate::lines::type_in;
use crate::live_jobs::{full, none_live};
use crate::plan_of::PlanOf;
use key_screen::Key;
use mc_dialogs::InputLine;
use mc_text::{NoMemory, Path, Text};
use resolving::with_home;
use std::alloc::Global;
use std::convert::AsStr;
use tree_trait::ReadTree;
use ui_plans::{JobPlan, plan_carry, plan_folder, plan_link};
use ui_words::LineReply;

/// A key in a line by whose text this is planned.
pub(crate) fn key_in_path<T: ReadTree>(
    alloc: Global,
    tree: &mut T,
    around: &Surroundings<'_>,
    wanted: &PlanOf<'_>,
    line: &mut InputLine,
    key: Key,
) -> Result<JobReply, NoMemory>
    ensures leads { IfOk result (PathLeads (line_reply_of (input_shut line.old key)) around.now.rows.now
        (PlansBy wanted.now (T.contents tree.old) (seen_around around.now))) }
    ensures state { OnOk result (line.new ≡ input_after line.old key) }
    ensures kept { IfOk result (λ reply. stays reply ≡ false → line.new ≡ line.old) }
    ensures lost { OnErr result (line.new ≡ line.old) }
    ensures allowed { IfOk result (IsAllowed around.now.rows.now) }
    ensures reads { ReadsTree reply_refusals result (T.contents tree.old) (T.contents tree.new)
        (T.fault_count tree.old) (T.fault_count tree.new) }
{
    match type_in(alloc, line, key)? {
        LineReply::Stays => Ok(JobReply::Stays),
        LineReply::Shuts => Ok(JobReply::Shuts),
        LineReply::Takes(text) => accept_path(alloc, tree, around, wanted, &text),
    }
}

/// The path is accepted: where no job is live the job is planned, or refused.
fn accept_path<T: ReadTree>(
    alloc: Global,
    tree: &mut T,
    around: &Surroundings<'_>,
    wanted: &PlanOf<'_>,
    text: &Text,
) -> Result<JobReply, NoMemory>
    ensures leads { IfOk result (PlansAlone around.now.rows.now
        (PlansBy wanted.now (T.contents tree.old) (seen_around around.now) text.now)) }
    ensures allowed { IfOk result (IsAllowed around.now.rows.now) }
    ensures reads { ReadsTree reply_refusals result (T.contents tree.old) (T.contents tree.new)
        (T.fault_count tree.old) (T.fault_count tree.new) }
{
    if !none_live(around.rows) {
        return Ok(full());
    }
    confirm(alloc, tree, around, wanted, text)
}

/// The job is confirmed: with HOME in place of a tilde it is planned, or it is refused.
fn confirm<T: ReadTree>(
    alloc: Global,
    tree: &mut T,
    around: &Surroundings<'_>,
    wanted: &PlanOf<'_>,
    text: &Text,
) -> Result<JobReply, NoMemory>
    ensures leads { IfOk result
        (IsPlanned (PlansBy wanted.now (T.contents tree.old) (seen_around around.now) text.now)) }
    ensures allowed { IfOk result (IsAllowed []) }
    ensures reads { ReadsTree reply_refusals result (T.contents tree.old) (T.contents tree.new)
        (T.fault_count tree.old) (T.fault_count tree.new) }
{
    let typed = with_home(alloc, around.home, text.as_str())?;
    match plan_at(alloc, tree, around.current, wanted, typed.as_str()) {
        Ok(JobPlan::Begins(plan)) => Ok(JobReply::Begins(plan)),
        Ok(JobPlan::Refuses(refusal)) => Ok(JobReply::Refuses(refusal)),
        Err(error) => Err(error),
    }
}

/// Plans a job where a typed text leads from a folder.
fn plan_at<T: ReadTree>(
    alloc: Global,
    tree: &mut T,
    from: &Path,
    wanted: &PlanOf<'_>,
    typed: &str,
) -> Result<JobPlan, NoMemory>
    ensures leads { IfOk result (PlansAt wanted.now (T.contents tree.old) from.now typed.now) }
    ensures reads { ReadsTree plan_refusals result (T.contents tree.old) (T.contents tree.new)
        (T.fault_count tree.old) (T.fault_count tree.new) }
{
    match wanted {
        PlanOf::Carry(source) => {
            let mask = source.mask.as_str();
            plan_carry(alloc, tree, source.carry, &source.chosen, mask, from, typed)
        }
        PlanOf::Folder => plan_folder(alloc, tree, from, typed),
        PlanOf::Link(text) => plan_link(alloc, tree, from, typed, text.as_str()),
    }
}
