//! The plans of the jobs that a box confirms.
ghost use Rattle.std.specs.Prelude.{◌≡◌, ◌<◌, true, IfOk};
ghost use Rattle.session_entries.specs.Sources.{are_workable};
ghost use Rattle.ui_plans.specs.Plans.{can_be_carried, carry_plan, delete_plan, mode_plan};
ghost use Rattle.ui_plans.specs.Carrying.{BeginsCarry, CarryLeads, IsPlanOf, carry_request, planned_as};
ghost use Rattle.ui_plans.specs.Choices.{plan_refusals};
ghost use Rattle.ui_plans.specs.Places.{is_below_home};
ghost use Rattle.ui_plans.specs.Reading.{ReadsTree};

use crate::home::is_below_home;
use crate::refused::{refuse, refused};
use job_reports::{Job, Pairs};
use mc_text::{NoMemory, Path, Paths, Text};
use op_plan::{Job as Planned, Request, make_plan};
use session_entries::{PlanError, Refusal};
use std::alloc::Global;
use tree_trait::ReadTree;
use ui_words::{Carry, Chosen};

/// What planning a job comes to.
#[derive(Debug, Drop)]
pub enum JobPlan {
    Begins(Job),
    Refuses(Refusal),
}

/// Plans how those things that a mask matches are copied or moved to where a typed text leads from a
/// folder. The text's last part makes the targets' names of the sources', or names the folder that is to
/// hold them. What stands at a target is the job's to ask about. What begins at HOME, which isn't known
/// here, is refused without a look.
pub fn plan_carry<T: ReadTree>(
    alloc: Global,
    tree: &mut T,
    carry: Carry,
    chosen: &Chosen,
    mask: &str,
    from: &Path,
    typed: &str,
) -> Result<JobPlan, NoMemory>
    ensures leads { IfOk result
        (CarryLeads carry (T.contents tree.old) chosen.now.paths mask.now from.now typed.now) }
    ensures home { is_below_home typed.now ≡ true → tree.new ≡ tree.old }
    ensures reads { ReadsTree plan_refusals result (T.contents tree.old) (T.contents tree.new)
        (T.fault_count tree.old) (T.fault_count tree.new) }
{
    if is_below_home(typed) {
        return refuse(PlanError::BadMask);
    }
    let request = request_of(alloc, carry, chosen, mask, from, typed)?;
    match make_plan(alloc, tree, request) {
        Ok(job) => Ok(plan_to(carry, pairs_of(carry, job))),
        Err(error) => refused(error),
    }
}

/// What is asked for: that these things are copied or moved.
fn request_of(
    alloc: Global,
    carry: Carry,
    chosen: &Chosen,
    mask: &str,
    from: &Path,
    typed: &str,
) -> Result<Request, NoMemory>
    ensures { IfOk result
        (λ request. request ≡ carry_request carry chosen.now.paths mask.now from.now typed.now) }
{
    let sources = chosen.paths.copy(alloc)?;
    let mask = Text::from_str(alloc, mask)?;
    let from = from.copy(alloc)?;
    let to = Text::from_str(alloc, typed)?;
    Ok(request_to(carry, sources, mask, from, to))
}

/// The request of its kind.
fn request_to(carry: Carry, sources: Paths, mask: Text, from: Path, to: Text) -> Request
    ensures { result ≡ carry_request carry sources mask from to }
{
    match carry {
        Carry::Copy => Request::Copy {
            sources,
            mask,
            from,
            to,
        },
        Carry::Move => Request::Move {
            sources,
            mask,
            from,
            to,
        },
    }
}

/// The sources of such a plan, each with its target.
fn pairs_of(carry: Carry, job: Planned) -> Pairs
    requires { IsPlanOf carry job }
    ensures { job ≡ planned_as carry result }
{
    match job {
        Planned::Copy(pairs) => pairs,
        Planned::Move(pairs) => pairs,
        _ => unreachable!(),
    }
}

/// The plan of the job that copies or moves sources to their targets.
#[tactic(auto, using(crate::proofs::Within::carry_works))]
fn plan_to(carry: Carry, pairs: Pairs) -> JobPlan
    requires within { can_be_carried carry pairs ≡ true }
    ensures { BeginsCarry carry pairs result }
{
    JobPlan::Begins(job_of(carry, pairs))
}

/// The job of its kind.
fn job_of(carry: Carry, pairs: Pairs) -> Job
    ensures { result ≡ carry_plan carry pairs }
{
    match carry {
        Carry::Copy => Job::Copy(pairs),
        Carry::Move => Job::Move(pairs),
    }
}

/// The setting of the mode of things.
#[tactic(auto, using(crate::proofs::Within::setting_works))]
pub fn mode_setting_of(alloc: Global, chosen: &Chosen, mode: u16) -> Result<Job, NoMemory>
    requires { mode < 4096 }
    ensures planned { IfOk result (λ plan. plan ≡ mode_plan chosen.now.paths mode) }
    ensures workable { IfOk result (λ plan. are_workable plan ≡ true) }
{
    Ok(Job::SetMode(chosen.paths.copy(alloc)?, mode))
}

/// The deletion of things.
#[tactic(auto, using(crate::proofs::Within::deletion_works))]
pub fn deletion_of(alloc: Global, chosen: &Chosen) -> Result<Job, NoMemory>
    ensures planned { IfOk result (λ plan. plan ≡ delete_plan chosen.now.paths) }
    ensures workable { IfOk result (λ plan. are_workable plan ≡ true) }
{
    Ok(Job::Delete(chosen.paths.copy(alloc)?))
}
