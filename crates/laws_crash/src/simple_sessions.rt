//! What that says of simple sessions.
ghost use Rattle.laws_crash.specs.Simple.{DeletionLaw, IdleLaw, PlainLaw};

/// Where one job is live and has changed one path, each other path holds what it held as the job began.
pub fn what_a_crash_leaves_of_one_job()
    ensures { PlainLaw }
{}

/// Where none is live and nothing is in doubt, a crash leaves the tree as it reads.
pub fn what_a_crash_leaves_of_none()
    ensures { IdleLaw }
{}

/// Where jobs only delete, each path is whole or gone, also in doubt.
pub fn what_a_crash_leaves_of_deletions()
    ensures { DeletionLaw }
{}
