//! A step of the copy of a file whose part stands.
ghost use Rattle.std.specs.Prelude.{◌≡◌, true};
ghost use Rattle.carry_job.specs.CarrySteps.{FileWorks};
ghost use Rattle.carry_job.specs.Carryings.{IsFileOf, IsGoing, after_cleaning as cleaned_to};
ghost use Rattle.carry_job.specs.Carryings.{after_file as file_to};

use crate::stage::{AfterStep, CarryStage};
use copy_file::{CopyPaths, FileCopy, FolderState, Stage};
use job_reports::{Did, PartTest};
use std::alloc::Global;
use tree_trait::Tree;

/// A step of the copy of a file.
pub(crate) fn work_file<T: Tree, P: PartTest>(
    alloc: Global,
    tree: &mut T,
    parts: &P,
    places: &CopyPaths,
    copy: FileCopy,
) -> AfterStep
    requires own { IsFileOf places.now copy }
    ensures works { FileWorks (λ path. P.is_free parts.now path ≡ true) copy result
        (T.contents tree.old) (T.contents tree.new) (T.fault_count tree.old) (T.fault_count tree.new) }
    ensures going { IsGoing places.now result.stage }
{
    let _places = places;
    let mut copy = copy;
    let stepped = copy.step(alloc, tree, parts);
    let stage = after_file(&stepped.did, copy);
    AfterStep {
        did: stepped.did,
        calls: stepped.calls,
        stage,
    }
}

/// Where the carrying of a file stands when its copy made this step.
fn after_file(did: &Did, copy: FileCopy) -> CarryStage
    ensures { result ≡ file_to did.now copy }
{
    match did {
        Did::Placed(_) => CarryStage::SyncTarget,
        Did::Cleaned(_) => after_cleaning(copy.stage()),
        _ => CarryStage::File(copy),
    }
}

/// The part of a file was removed.
fn after_cleaning(stage: &Stage) -> CarryStage
    ensures { result ≡ cleaned_to stage.now }
{
    match stage {
        Stage::Begin => CarryStage::Take {
            folder: FolderState::Dirty,
        },
        _ => CarryStage::Settle,
    }
}
