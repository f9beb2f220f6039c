//! What a job has to know before it changes a name, and what its changes keep.
ghost use Rattle.laws_crash.specs.NameKnowledge.{MakingLaw, MovingLaw, NamesOfMovedLaw};
ghost use Rattle.laws_crash.specs.NameKnowledge.{PlacingLaw, RemovalLaw, UnworkedLaw};

/// A job may remove what it found.
pub fn what_a_removal_is()
    ensures { RemovalLaw }
{}

/// What it found below a path, or removed there, stays so while it works.
pub fn what_is_known_below_a_path()
    ensures { UnworkedLaw }
{}

/// It may give a part that was synced the name of its target.
pub fn what_a_placing_is()
    ensures { PlacingLaw }
{}

/// It may make a part, or a folder where nothing stood.
pub fn what_a_making_is()
    ensures { MakingLaw }
{}

/// It may rename a thing with all below it, of which nothing waits for a sync.
pub fn what_a_renaming_is()
    ensures { MovingLaw }
{}

/// What was renamed has one name again once both folders were synced.
pub fn what_names_a_moved_thing_has()
    ensures { NamesOfMovedLaw }
{}
