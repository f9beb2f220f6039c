//! What is asked of sources: that none lies in another, and that each is there.
ghost use Rattle.std.specs.Prelude.{◌≡◌, false, IfErr, IfSome, OnOk};
ghost use Rattle.tree_trait.specs.Change.{current};
ghost use Rattle.tree_trait.specs.Answers.{IfKnown};
ghost use Rattle.op_plan.specs.Answering.{Plans, is_fault, HasPlanCause, CarriesPlanCause};
ghost use Rattle.op_plan.specs.Meeting.{meet, has_two};
ghost use Rattle.op_plan.specs.Digests.{LieApart};
ghost use Rattle.op_plan.specs.Checks.{none_nested, all_there};

use crate::error::PlanError;
use crate::meeting::first_meeting;
use mc_text::{Path, Paths};
use std::alloc::Global;
use tree_trait::{ReadTree, TreeError};

/// Sources, and the folder in which all of them lie, where it was seen that they lie in one.
#[derive(Debug, Drop)]
pub struct Sources {
    pub paths: Paths,
    pub holder: Option<Path>,
}

/// Refuses sources of which one is another or lies in it.
fn refuse_nested(alloc: Global, sources: &[Path]) -> Result<(), PlanError>
    ensures answer { Plans (none_nested sources.now) result }
    ensures apart { OnOk result (has_two meet sources.now ≡ false) }
    ensures no_fault { IfErr result (λ e. is_fault e ≡ false) }
    ensures carried { IfErr result CarriesPlanCause }
{
    match first_meeting(alloc, sources)? {
        None => Ok(()),
        Some((first, second)) => Err(PlanError::Nested(
            sources[first].copy(alloc)?,
            sources[second].copy(alloc)?,
        )),
    }
}

/// Refuses sources of which one is another or lies in it, where it isn't known that they lie side by side.
pub fn refuse_nested_unless(
    alloc: Global,
    holder: &Option<Path>,
    sources: &[Path],
) -> Result<(), PlanError>
    requires { IfSome holder.now (λ folder. LieApart folder sources.now) }
    ensures answer { Plans (none_nested sources.now) result }
    ensures apart { OnOk result (has_two meet sources.now ≡ false) }
    ensures no_fault { IfErr result (λ e. is_fault e ≡ false) }
    ensures carried { IfErr result CarriesPlanCause }
{
    match holder {
        Some(_) => Ok(()),
        None => refuse_nested(alloc, sources),
    }
}

/// Looks at each source.
pub fn look_at_all<T: ReadTree>(
    alloc: Global,
    tree: &mut T,
    sources: &[Path],
) -> Result<(), PlanError>
    ensures answer { IfKnown (T.contents tree.old) (λ log.
        Plans (all_there (current log) sources.now) result) }
    ensures same { T.contents tree.new ≡ T.contents tree.old }
    ensures cause { HasPlanCause (T.fault_count tree.old) (T.fault_count tree.new) result }
{
    for source in sources {
        match tree.stat(alloc, source) {
            Ok(_) => {}
            Err(TreeError::Memory) => return Err(PlanError::Memory),
            Err(error) => return Err(PlanError::Source(source.copy(alloc)?, error)),
        }
    }
    Ok(())
}
