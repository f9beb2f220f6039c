//! What holds of each crash image, and of the tree that can be seen. These functions do nothing: their
//! contracts are laws of the definitions, on which the contracts of the calls rest.
ghost use Rattle.tree_trait.specs.CrashImages.{NamesLaw, GrowsLaw, SteadyLaw, SyncLaw};
ghost use Rattle.tree_trait.specs.Views.{RemovalLaw};

/// In each image each name leads to what it leads to now, or to what it led to before
/// an unsynced change of it.
pub fn names_after_a_crash()
    ensures { NamesLaw }
{}

/// One call more adds its own change to each image, or, if it is unsynced, leaves it out.
pub fn images_grow()
    ensures { GrowsLaw }
{}

/// A path is in each image as it is now, where no unsynced change touches a name of it or alters its node.
pub fn what_stays()
    ensures { SteadyLaw }
{}

/// After a sync of a folder each of its names leads, in each image, where it leads now, if nothing was moved.
pub fn what_a_sync_settles()
    ensures { SyncLaw }
{}

/// A removal that isn't refused takes one path out of the tree that can be seen.
pub fn what_a_removal_shows()
    ensures { RemovalLaw }
{}
