//! The laws.
ghost use Rattle.laws_claims.specs.Commuting.{WorksCommute, OutcomesCommute};
ghost use Rattle.laws_claims.specs.Fits.{FitLaw};
ghost use Rattle.laws_claims.specs.Keeping.{KeptLaw};
ghost use Rattle.laws_claims.specs.Local.{WorkLaw};
ghost use Rattle.laws_claims.specs.Planned.{BetweenLaw};
ghost use Rattle.laws_claims.specs.Recursion.{RecursionLaw};

/// Two jobs whose claims don't clash come to the same in either order: their works, however they are
/// interleaved, and their outcomes.
pub fn jobs_commute()
    ensures works { WorksCommute }
    ensures outcomes { OutcomesCommute }
{}

/// A work of a job touches only what the job claims for writing, and rests only on what lies near its claims.
pub fn works_keep_to_claims()
    ensures { WorkLaw }
{}

/// The works of one job, in any order in which they fit, leave its outcome.
pub fn works_leave_the_outcome()
    ensures { FitLaw }
{}

/// Whatever parts of a job are done, a path holds its value from before or after, or is a
/// folder that will stand there.
pub fn nothing_else_stands_there()
    ensures { BetweenLaw }
{}

/// A thing that is moved is whole at its source or at its target.
pub fn what_is_moved_is_kept()
    ensures { KeptLaw }
{}

/// A copy's outcome is the recursion over its subtree.
pub fn a_copy_is_a_recursion()
    ensures { RecursionLaw }
{}
