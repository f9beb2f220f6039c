//! The plan of a new link.
ghost use Rattle.std.specs.Prelude.{◌≡◌, true, is_some, IfOk};
ghost use Rattle.mc_text.specs.Routes.{parent_of};
ghost use Rattle.ui_plans.specs.Choices.{plan_refusals};
ghost use Rattle.ui_plans.specs.Links.{IsLinkAt, LinkLeads};
ghost use Rattle.ui_plans.specs.Places.{is_below_home};
ghost use Rattle.ui_plans.specs.Reading.{ReadsTree};

use crate::carrying::JobPlan;
use crate::new_place::{NewPlace, new_place};
use crate::refused::refuse;
use job_reports::Job;
use mc_text::{NoMemory, Path, Text};
use op_plan::is_link_text;
use session_entries::PlanError;
use std::alloc::Global;
use tree_trait::ReadTree;

/// Plans a new link, which says a text, at the path of a new thing to which a typed text leads from a folder.
pub fn plan_link<T: ReadTree>(
    alloc: Global,
    tree: &mut T,
    from: &Path,
    typed: &str,
    text: &str,
) -> Result<JobPlan, NoMemory>
    ensures leads { IfOk result (LinkLeads (T.contents tree.old) from.now typed.now text.now) }
    ensures home { is_below_home typed.now ≡ true → tree.new ≡ tree.old }
    ensures reads { ReadsTree plan_refusals result (T.contents tree.old) (T.contents tree.new)
        (T.fault_count tree.old) (T.fault_count tree.new) }
{
    match new_place(alloc, tree, from, typed)? {
        NewPlace::At(path) => link_at(alloc, path, text),
        NewPlace::Refused(refusal) => Ok(JobPlan::Refuses(refusal)),
    }
}

/// The link at a path, if one can say the text.
fn link_at(alloc: Global, path: Path, text: &str) -> Result<JobPlan, NoMemory>
    requires within { is_some (parent_of path) ≡ true }
    ensures { IfOk result (IsLinkAt path text.now) }
{
    if !is_link_text(text) {
        return refuse(PlanError::BadLinkText);
    }
    Ok(JobPlan::Begins(Job::MakeLink(path, Text::from_str(alloc, text)?)))
}
