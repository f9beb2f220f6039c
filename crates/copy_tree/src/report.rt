//! What the steps of a tree's copy report.
ghost use Rattle.std.specs.Prelude.{◌≡◌};
ghost use Rattle.copy_tree.specs.Reports.{IsReport, IsToldAs, changes, stopped_by};
ghost use Rattle.copy_tree.specs.Standing.{after_report};

use crate::copy::Stage;
use copy_folders::FolderDid;
use job_reports::{Did, StepResult, Trouble};

/// A trouble before any call that changes the tree.
pub(crate) fn stopped(trouble: Trouble) -> StepResult
    ensures { result ≡ stopped_by trouble }
{
    StepResult {
        did: Did::Troubled(trouble),
        calls: 0,
    }
}

/// What was done at a folder itself.
pub(crate) fn told(did: FolderDid) -> Did
    requires { IsReport did }
    ensures { IsToldAs did result }
{
    match did {
        FolderDid::Made(path) => Did::Made(path),
        FolderDid::Set(path) => Did::Set(path),
        FolderDid::Barrier => Did::Barrier,
        FolderDid::Closed => unreachable!(),
        FolderDid::Troubled(trouble) => Did::Troubled(trouble),
    }
}

/// Whether anything was changed, after this report.
pub(crate) fn stage_after(did: &Did, stage: Stage) -> Stage
    ensures { result ≡ after_report did.now stage }
{
    if is_change(did) { Stage::Going } else { stage }
}

fn is_change(did: &Did) -> bool
    ensures { result ≡ changes did.now }
{
    match did {
        Did::Began(_) | Did::Chunk(_) | Did::Placed(_) | Did::Cleaned(_) => true,
        Did::Made(_) | Did::Set(_) | Did::Removed(_) | Did::Barrier => true,
        Did::Kept(_) | Did::Skipped(_, _) | Did::Asked(_) => false,
        Did::Merges(_, _, _) => false,
        Did::Moved(_) => true,
        Did::Troubled(_) | Did::Ended { .. } => false,
    }
}
