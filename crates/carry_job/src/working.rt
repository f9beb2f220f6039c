//! The next piece of work, by where the carrying stands.
ghost use Rattle.std.specs.Prelude.{◌≡◌, None, true};
ghost use Rattle.carry_job.specs.CarrySteps.{Works};
ghost use Rattle.carry_job.specs.Carryings.{IsGoing, IsHeld};

use crate::beginning::{take, uncalled};
use crate::file_copying::work_file;
use crate::link_copying::work_link;
use crate::removing::{remove, settle, sync_source, sync_target};
use crate::stage::{AfterStep, CarryStage};
use copy_file::CopyPaths;
use job_answers::Replies;
use job_reports::{Did, Ending, PartTest};
use std::alloc::Global;
use tree_trait::Tree;

/// Does the next piece of work.
pub(crate) fn work<T: Tree, P: PartTest>(
    alloc: Global,
    tree: &mut T,
    parts: &P,
    places: &CopyPaths,
    stage: CarryStage,
    replies: Replies,
) -> AfterStep
    requires held { IsHeld places.now }
    requires going { IsGoing places.now stage }
    ensures works { Works (λ path. P.is_free parts.now path ≡ true) replies places.now stage result
        (T.contents tree.old) (T.contents tree.new) (T.fault_count tree.old) (T.fault_count tree.new) }
    ensures going { IsGoing places.now result.stage }
{
    match stage {
        CarryStage::Take { folder } => take(alloc, tree, parts, places, folder, replies),
        CarryStage::File(copy) => work_file(alloc, tree, parts, places, copy),
        CarryStage::Link(copy) => work_link(alloc, tree, places, copy),
        CarryStage::SyncTarget => sync_target(alloc, tree, places),
        CarryStage::Remove => remove(alloc, tree, places),
        CarryStage::SyncSource => sync_source(alloc, tree, places),
        CarryStage::Settle => settle(alloc, tree, places),
        CarryStage::Finish => uncalled(finished(), CarryStage::Finish),
        CarryStage::PassedOver => uncalled(finished(), CarryStage::PassedOver),
        CarryStage::Stays(_) => unreachable!(),
    }
}

/// Nothing is left to be done.
fn finished() -> Did
    ensures { result ≡ Did.Ended Ending.Finished None }
{
    Did::Ended {
        ending: Ending::Finished,
        part: None,
    }
}
