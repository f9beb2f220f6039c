//! What is moved.
ghost use Rattle.laws_crash.specs.Moved.{MovedLaw};
ghost use Rattle.laws_crash.specs.Whole.{WholeLaw};

/// What is moved stands whole at its source or at its target.
pub fn what_is_moved_stays_whole()
    ensures { WholeLaw }
{}

/// In each image a thing that was moved stays at its source or at its target, with all that lies in it,
/// whatever change meets neither path.
pub fn what_meets_no_moved_thing()
    ensures { MovedLaw }
{}
