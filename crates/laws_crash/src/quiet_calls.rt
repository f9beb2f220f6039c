//! Syncs, writes and modes: what they keep, and what a sync settles.
ghost use Rattle.laws_crash.specs.Modes.{ModesLaw, SettingLaw};
ghost use Rattle.laws_crash.specs.NameKnowledge.{BelowLaw, FirmLaw, GoneLaw, ModeLaw};
ghost use Rattle.laws_crash.specs.NameKnowledge.{SyncLaw, SyncedLaw, UnalteredLaw, WriteLaw};

/// A sync keeps what is known.
pub fn what_a_sync_keeps()
    ensures { SyncLaw }
{}

/// So does a write to a part that was not synced.
pub fn what_a_write_keeps()
    ensures { WriteLaw }
{}

/// After its folder's sync a name is settled.
pub fn what_a_sync_of_a_folder_settles()
    ensures { SyncedLaw }
{}

/// After its own sync the bytes and mode of a node are on the disk.
pub fn what_a_sync_of_a_file_settles()
    ensures { FirmLaw }
{}

/// Below what is gone nothing comes back.
pub fn what_is_gone()
    ensures { GoneLaw }
{}

/// Another mode of a part that was not synced keeps what is known.
pub fn what_another_mode_keeps()
    ensures { ModeLaw }
{}

/// A mode that is set is there in each image or, until the sync of the thing itself, the mode before.
pub fn what_a_mode_leaves()
    ensures { ModesLaw }
{}

/// A job may set the mode of a thing of which nothing waits: what is known of the tree is kept.
pub fn what_a_setting_of_a_mode_keeps()
    ensures { SettingLaw }
{}

/// What lies below a settled path is settled, where nothing below waits.
pub fn what_is_settled_below()
    ensures { BelowLaw }
{}

/// What isn't altered keeps its bytes and mode.
pub fn what_is_not_altered()
    ensures { UnalteredLaw }
{}
