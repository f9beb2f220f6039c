//! Laws of copies. They have no code: their clauses are proved, and stand here so that they are.
ghost use Rattle.copy_job.specs.Barriers.{BarrierLaw};
ghost use Rattle.copy_job.specs.Counted.{CountLaw, LastCountLaw};
ghost use Rattle.copy_job.specs.Known.{KnownLaw};
ghost use Rattle.copy_job.specs.Merged.{MergedLaw};
ghost use Rattle.copy_job.specs.Ranks.{AnsweredLaw, LastRankLaw, RankLaw, SteadyLaw, WaitingLaw};
ghost use Rattle.copy_job.specs.Reporting.{ReportingLaw};
ghost use Rattle.copy_job.specs.Told.{ToldLaw};
ghost use Rattle.copy_job.specs.Troubles.{TroubleLaw};
ghost use Rattle.copy_job.specs.Unbegun.{UnbegunLaw};

/// A trouble stands at a barrier, where nothing can be skipped, where the copy does after it.
pub fn a_trouble_stands_where_the_copy_does()
    ensures { BarrierLaw }
{}

/// Each step after which the copy goes on leaves fewer steps.
pub fn each_step_leaves_fewer()
    ensures { RankLaw }
{}

/// A copy that begins is steady, and stays so.
pub fn each_copy_is_steady()
    ensures { SteadyLaw }
{}

/// A skip that goes on leaves fewer steps, and a retry those of one thing more at most.
pub fn what_answers_leave()
    ensures { AnsweredLaw }
{}

/// The last steps of a copy are fewer than those that it has left.
pub fn last_steps_are_fewer()
    ensures { WaitingLaw }
{}

/// Each last step but the end leaves fewer last steps.
pub fn each_last_step_leaves_fewer()
    ensures { LastRankLaw }
{}

/// A step counts its calls, at most three, and meets a fault only where the tree's count has risen.
pub fn a_step_counts_its_calls()
    ensures { CountLaw }
{}

/// Each report says how the part goes on, and whether anything was changed.
pub fn what_a_history_can_tell()
    ensures { ToldLaw }
{}

/// A copy that came into a trouble has no more last steps than it had steps; and what a skip tells.
pub fn what_a_trouble_leaves()
    ensures { TroubleLaw }
{}

/// A copy that has changed nothing yet has nothing at work and is in no folder, and its
/// troubles are at no barrier.
pub fn what_an_unbegun_copy_is()
    ensures { UnbegunLaw }
{}

/// A copy that merges has changed nothing, what it merges is what it copies, and then it is over
/// and changes nothing more.
pub fn what_a_merge_leaves()
    ensures { MergedLaw }
{}

/// Which reports a step and a last step make, and that each changes a folder of the copy's own.
pub fn what_a_copy_reports()
    ensures { ReportingLaw }
{}

/// A tree that tells what it holds goes on telling with each step.
pub fn each_step_keeps_the_tree_known()
    ensures { KnownLaw }
{}

/// A last step counts its calls, at most two, and tells a fault only where the tree's count has risen.
pub fn a_last_step_counts_its_calls()
    ensures { LastCountLaw }
{}
