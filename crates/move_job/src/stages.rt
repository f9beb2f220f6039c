//! Where a move stands once it has gone on.
ghost use Rattle.std.specs.Prelude.{◌≡◌, if◌then◌else◌};
ghost use Rattle.mc_text.specs.Routes.{same_path};
ghost use Rattle.move_job.specs.Movings.{skipped_stage as skipped_to};

use crate::moving::MovingStage;
use mc_text::Path;

/// Where a move stands once this folder, its target's, was synced.
pub(crate) fn after_target(folder: &Path, source_folder: &Path) -> MovingStage
    ensures { result ≡ if same_path folder.now source_folder.now then MovingStage.Finish
        else MovingStage.SyncSource }
{
    if folder.same(source_folder) {
        return MovingStage::Finish;
    }
    MovingStage::SyncSource
}

/// Where a move stands whose thing stays.
pub(crate) fn skipped(stage: MovingStage) -> MovingStage
    ensures { result ≡ skipped_to stage }
{
    match stage {
        MovingStage::Take => MovingStage::PassedOver,
        MovingStage::SyncTarget => MovingStage::SyncTarget,
        MovingStage::SyncSource => MovingStage::SyncSource,
        MovingStage::Finish => MovingStage::Finish,
        MovingStage::PassedOver => MovingStage::PassedOver,
    }
}
