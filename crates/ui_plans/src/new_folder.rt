//! The plan of a new folder.
ghost use Rattle.std.specs.Prelude.{◌≡◌, true, IfOk};
ghost use Rattle.ui_plans.specs.Choices.{plan_refusals};
ghost use Rattle.ui_plans.specs.Folders.{FolderLeads};
ghost use Rattle.ui_plans.specs.Places.{is_below_home};
ghost use Rattle.ui_plans.specs.Reading.{ReadsTree};

use crate::carrying::JobPlan;
use crate::new_place::{NewPlace, new_place};
use job_reports::Job;
use mc_text::{NoMemory, Path};
use std::alloc::Global;
use tree_trait::ReadTree;

/// Plans a new folder at the path of a new thing to which a typed text leads from a folder.
pub fn plan_folder<T: ReadTree>(
    alloc: Global,
    tree: &mut T,
    from: &Path,
    typed: &str,
) -> Result<JobPlan, NoMemory>
    ensures leads { IfOk result (FolderLeads (T.contents tree.old) from.now typed.now) }
    ensures home { is_below_home typed.now ≡ true → tree.new ≡ tree.old }
    ensures reads { ReadsTree plan_refusals result (T.contents tree.old) (T.contents tree.new)
        (T.fault_count tree.old) (T.fault_count tree.new) }
{
    match new_place(alloc, tree, from, typed)? {
        NewPlace::At(path) => Ok(JobPlan::Begins(Job::MakeFolder(path))),
        NewPlace::Refused(refusal) => Ok(JobPlan::Refuses(refusal)),
    }
}
