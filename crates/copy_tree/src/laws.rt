//! Laws of copies. They have no code: their clauses are proved, and stand here so that they are.
ghost use Rattle.copy_tree.specs.Beginning.{BeginningLaw};
ghost use Rattle.copy_tree.specs.Falling.{FallingLaw};
ghost use Rattle.copy_tree.specs.InPlace.{PlaceLaw};
ghost use Rattle.copy_tree.specs.MadeCalls.{CallLaw, StayingLaw};
ghost use Rattle.copy_tree.specs.OnDisk.{OnDiskLaw};
ghost use Rattle.copy_tree.specs.WorkedFolder.{WorkedFolderLaw};

/// A copy that begins is in its place, and steady, as the laws below want it.
pub fn a_copy_begins_in_its_place()
    ensures { BeginningLaw }
{}

/// A copy keeps to its place: what it places, makes and gives a mode is the target of a
/// thing at or below its source.
pub fn a_copy_keeps_to_its_place()
    ensures { PlaceLaw }
{}

/// No step of a copy leaves more things, and each that places a thing or makes a folder leaves fewer.
pub fn each_decision_leaves_fewer_things()
    ensures { FallingLaw }
{}

/// A skip, a retry and a last step keep a copy in its place, too.
pub fn skips_and_last_steps_keep_a_copy_in_its_place()
    ensures { StayingLaw }
{}

/// A copy changes nothing but the targets of what lies at or below its source, and parts beside them:
/// which calls its steps make.
pub fn a_copy_changes_targets_and_their_parts_alone()
    ensures { CallLaw }
{}

/// The folder of the file or link at work is the one that is worked.
pub fn what_is_at_work_lies_in_the_folder_that_is_worked()
    ensures { WorkedFolderLaw }
{}

/// A folder that was made is on the disk before anything is put into it: of the folders around the
/// innermost only the nearest may be dirty, and only that long.
pub fn a_made_folder_is_on_the_disk_before_it_is_filled()
    ensures { OnDiskLaw }
{}
