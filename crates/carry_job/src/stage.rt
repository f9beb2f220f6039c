//! Where the carrying of a thing stands.
ghost use Rattle.std.specs.Prelude.{◌≡◌, option_map};
ghost use Rattle.carry_job.specs.Carryings.{at_barrier, is_fresh, is_source_dirty, is_target_dirty, part_at};

use copy_file::{FileCopy, FolderState};
use copy_link::LinkCopy;
use job_reports::Did;
use mc_text::Path;

/// What is to be done next.
#[derive(Debug, Drop)]
pub enum CarryStage {
    /// The thing is to be looked at, and the part of its copy to be made. The target's folder is dirty where
    /// an earlier part was removed.
    Take { folder: FolderState },
    /// A file whose part stands.
    File(FileCopy),
    /// A link whose part stands.
    Link(LinkCopy),
    /// The copy stands at its target. The folder there is synced before the source is removed, so that no
    /// crash leaves neither.
    SyncTarget,
    /// The copy and its name are on the disk. The source is to be removed.
    Remove,
    /// The source is gone. Its folder is to be synced.
    SyncSource,
    /// The thing stands at its target for good. Nothing is left to be done.
    Finish,
    /// The thing is passed over, or what stands at its target is kept. A part was removed, so the target's
    /// folder is to be synced.
    Settle,
    /// The thing stays where it is. Nothing is left to be done.
    PassedOver,
    /// In the last steps: the part at this path could not be removed. It stays.
    Stays(Path),
}

/// What a step did, how many changing calls it made, and where the carrying stands then.
#[derive(Debug, Drop)]
pub(crate) struct AfterStep {
    pub(crate) did: Did,
    pub(crate) calls: u64,
    pub(crate) stage: CarryStage,
}

/// The part that stands.
pub(crate) fn part_in(stage: &CarryStage) -> Option<&Path>
    ensures { option_map (λ part. part.now) result ≡ part_at stage.now }
{
    match stage {
        CarryStage::File(copy) => copy.part(),
        CarryStage::Link(copy) => Some(copy.part()),
        CarryStage::Stays(part) => Some(part),
        CarryStage::Take { .. } | CarryStage::SyncTarget | CarryStage::Remove => None,
        CarryStage::SyncSource | CarryStage::Finish => None,
        CarryStage::Settle | CarryStage::PassedOver => None,
    }
}

/// The part that stands, where the carrying is given up.
pub(crate) fn part_of(stage: CarryStage) -> Option<Path>
    ensures { result ≡ part_at stage }
{
    match stage {
        CarryStage::File(copy) => copy.into_part(),
        CarryStage::Link(copy) => Some(copy.into_part()),
        CarryStage::Stays(part) => Some(part),
        CarryStage::Take { .. } | CarryStage::SyncTarget | CarryStage::Remove => None,
        CarryStage::SyncSource | CarryStage::Finish => None,
        CarryStage::Settle | CarryStage::PassedOver => None,
    }
}

/// Whether the next call is at a barrier.
pub(crate) fn is_barrier(stage: &CarryStage) -> bool
    ensures { result ≡ at_barrier stage.now }
{
    match stage {
        CarryStage::File(copy) => copy.is_at_barrier(),
        CarryStage::Link(copy) => copy.is_at_barrier(),
        CarryStage::Take { .. } | CarryStage::Remove => false,
        CarryStage::SyncTarget | CarryStage::SyncSource | CarryStage::Finish => true,
        CarryStage::Settle | CarryStage::PassedOver | CarryStage::Stays(_) => true,
    }
}

/// Whether nothing was changed yet.
pub(crate) fn is_fresh_at(stage: &CarryStage) -> bool
    ensures { result ≡ is_fresh stage.now }
{
    match stage {
        CarryStage::Take { folder } => match folder {
            FolderState::Synced => true,
            FolderState::Dirty => false,
        },
        CarryStage::File(_) | CarryStage::Link(_) => false,
        CarryStage::SyncTarget | CarryStage::Remove | CarryStage::SyncSource => false,
        CarryStage::Finish | CarryStage::Settle => false,
        CarryStage::PassedOver | CarryStage::Stays(_) => false,
    }
}

/// Whether the target's folder is to be synced.
pub(crate) fn owes_target(stage: &CarryStage) -> bool
    ensures { result ≡ is_target_dirty stage.now }
{
    match stage {
        CarryStage::Take { folder } => match folder {
            FolderState::Synced => false,
            FolderState::Dirty => true,
        },
        CarryStage::File(_) | CarryStage::Link(_) => true,
        CarryStage::SyncTarget | CarryStage::Settle => true,
        CarryStage::Remove | CarryStage::SyncSource | CarryStage::Finish => false,
        CarryStage::PassedOver | CarryStage::Stays(_) => false,
    }
}

/// Whether the source's folder is to be synced.
pub(crate) fn owes_source(stage: &CarryStage) -> bool
    ensures { result ≡ is_source_dirty stage.now }
{
    match stage {
        CarryStage::SyncSource => true,
        CarryStage::Take { .. } | CarryStage::File(_) | CarryStage::Link(_) => false,
        CarryStage::SyncTarget | CarryStage::Remove | CarryStage::Finish => false,
        CarryStage::Settle | CarryStage::PassedOver | CarryStage::Stays(_) => false,
    }
}
