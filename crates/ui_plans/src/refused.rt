//! What comes of a plan that was refused.
ghost use Rattle.std.specs.Prelude.{◌≡◌, IfOk, Ok};
ghost use Rattle.ui_plans.specs.Told.{IsToldAs};

use crate::carrying::JobPlan;
use mc_text::NoMemory;
use op_plan::PlanError as PlaceError;
use session_entries::{PlanError, Refusal};

/// What comes of a plan that was refused so.
pub(crate) fn refused(error: PlaceError) -> Result<JobPlan, NoMemory>
    ensures { IfOk result (IsToldAs error) }
{
    match error {
        PlaceError::NoSelection => refuse(PlanError::NoSelection),
        PlaceError::Nested(first, second) => refuse(PlanError::Nested(first, second)),
        PlaceError::Source(path, error) => refuse(PlanError::Source(path, error)),
        PlaceError::BadMask => refuse(PlanError::BadMask),
        PlaceError::Target(error) => refuse(PlanError::Target(error)),
        PlaceError::TargetThere(path) => refuse(PlanError::TargetThere(path)),
        PlaceError::SameFile(path) => refuse(PlanError::SameFile(path)),
        PlaceError::IntoItself(source, target) => refuse(PlanError::IntoItself(source, target)),
        PlaceError::TwoToOne(first, second) => refuse(PlanError::TwoToOne(first, second)),
        PlaceError::BadLinkText => refuse(PlanError::BadLinkText),
        PlaceError::Memory => Err(NoMemory),
    }
}

/// A refused plan.
pub(crate) fn refuse(error: PlanError) -> Result<JobPlan, NoMemory>
    ensures { result ≡ Ok (JobPlan.Refuses (Refusal.Plan error)) }
{
    Ok(JobPlan::Refuses(Refusal::Plan(error)))
}
