//! The path of a new thing.
ghost use Rattle.std.specs.Prelude.{◌≡◌, true, IfOk, Ok};
ghost use Rattle.ui_plans.specs.Places.{IsToldOfPlace, PlaceLeads, is_below_home, place_refusals};
ghost use Rattle.ui_plans.specs.Reading.{ReadsTree};

use crate::home::is_below_home;
use mc_text::{NoMemory, Path};
use op_plan::{PlanError as PlaceError, plan_place};
use session_entries::{PlanError, Refusal, TypedError};
use std::alloc::Global;
use tree_trait::ReadTree;

/// Where a new thing is to stand, or why it can't.
#[derive(Debug, Drop)]
pub(crate) enum NewPlace {
    At(Path),
    Refused(Refusal),
}

/// The path to which a typed text leads from a folder: what stands before its last slash leads to the
/// folder that is to hold the new thing, and the last part is its name. It is refused where something
/// stands there. What begins at HOME, which isn't known here, is refused too, without a look.
pub(crate) fn new_place<T: ReadTree>(
    alloc: Global,
    tree: &mut T,
    from: &Path,
    typed: &str,
) -> Result<NewPlace, NoMemory>
    ensures leads { IfOk result (PlaceLeads (T.contents tree.old) from.now typed.now) }
    ensures home { is_below_home typed.now ≡ true → tree.new ≡ tree.old }
    ensures reads { ReadsTree place_refusals result (T.contents tree.old) (T.contents tree.new)
        (T.fault_count tree.old) (T.fault_count tree.new) }
{
    if is_below_home(typed) {
        return Ok(NewPlace::Refused(Refusal::Typed(TypedError::BadName)));
    }
    match plan_place(alloc, tree, from, typed) {
        Ok(path) => Ok(NewPlace::At(path)),
        Err(error) => refused_place(error),
    }
}

/// What comes of a path that was refused so.
fn refused_place(error: PlaceError) -> Result<NewPlace, NoMemory>
    ensures { IfOk result (IsToldOfPlace error) }
{
    match error {
        PlaceError::BadMask => Ok(NewPlace::Refused(Refusal::Typed(TypedError::BadName))),
        PlaceError::Target(error) => refuse_place(PlanError::Target(error)),
        PlaceError::TargetThere(path) => refuse_place(PlanError::TargetThere(path)),
        // Such a path is refused in no other way.
        _ => Err(NoMemory),
    }
}

/// A refused path.
fn refuse_place(error: PlanError) -> Result<NewPlace, NoMemory>
    ensures { result ≡ Ok (NewPlace.Refused (Refusal.Plan error)) }
{
    Ok(NewPlace::Refused(Refusal::Plan(error)))
}
