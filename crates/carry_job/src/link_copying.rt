//! A step of the copy of a link whose part stands.
ghost use Rattle.std.specs.Prelude.{◌≡◌};
ghost use Rattle.carry_job.specs.CarrySteps.{LinkWorks};
ghost use Rattle.carry_job.specs.Carryings.{IsGoing, IsLinkOf, after_link as link_to};
ghost use Rattle.carry_job.specs.Carryings.{after_link_cleaning as link_cleaned_to};

use crate::stage::{AfterStep, CarryStage};
use copy_file::{CopyPaths, FolderState};
use copy_link::{LinkCopy, Stage};
use job_reports::Did;
use std::alloc::Global;
use tree_trait::Tree;

/// A step of the copy of a link.
pub(crate) fn work_link<T: Tree>(
    alloc: Global,
    tree: &mut T,
    places: &CopyPaths,
    copy: LinkCopy,
) -> AfterStep
    requires own { IsLinkOf places.now copy }
    ensures works { LinkWorks copy result
        (T.contents tree.old) (T.contents tree.new) (T.fault_count tree.old) (T.fault_count tree.new) }
    ensures going { IsGoing places.now result.stage }
{
    let _places = places;
    let mut copy = copy;
    let stepped = copy.step(alloc, tree);
    let stage = after_link(&stepped.did, copy);
    AfterStep {
        did: stepped.did,
        calls: stepped.calls,
        stage,
    }
}

fn after_link(did: &Did, copy: LinkCopy) -> CarryStage
    ensures { result ≡ link_to did.now copy }
{
    match did {
        Did::Placed(_) => CarryStage::SyncTarget,
        Did::Cleaned(_) => after_link_cleaning(copy.stage()),
        _ => CarryStage::Link(copy),
    }
}

/// The part of a link was removed.
fn after_link_cleaning(stage: Stage) -> CarryStage
    ensures { result ≡ link_cleaned_to stage }
{
    match stage {
        Stage::Again => CarryStage::Take {
            folder: FolderState::Dirty,
        },
        _ => CarryStage::Settle,
    }
}
