//! The same from a call and its answer.
ghost use Rattle.laws_crash.specs.Called.{FolderSyncedLaw, MadeLaw, PlacedLaw, RemovedLaw};

/// A removal that was done keeps what is known, where the job knew its path.
pub fn what_a_call_to_remove_keeps()
    ensures { RemovedLaw }
{}

/// So does the making of a part.
pub fn what_a_call_to_make_keeps()
    ensures { MadeLaw }
{}

/// So does the renaming of a part that was synced.
pub fn what_a_call_to_rename_keeps()
    ensures { PlacedLaw }
{}

/// And the sync of a folder settles its names.
pub fn what_a_call_to_sync_settles()
    ensures { FolderSyncedLaw }
{}
