//! Several live jobs: what their steps keep, and what a crash leaves.
ghost use Rattle.laws_crash.specs.NameKnowledge.{FrameLaw, MeanwhileLaw, OpeningLaw, OthersLaw};
ghost use Rattle.laws_crash.specs.Table.{BeginLaw, CalmLaw, ModeStepLaw, NodesLaw, RestLaw, SafeLaw, StepLaw};

/// What one job changes is nothing to another's paths.
pub fn what_another_job_sees()
    ensures { FrameLaw }
{}

/// What a crash leaves under the claims of live jobs, and elsewhere.
pub fn what_a_crash_leaves()
    ensures { SafeLaw }
{}

/// A step of one of the jobs that changes names under its claims keeps the table.
pub fn what_a_step_of_a_job_keeps()
    ensures { StepLaw }
{}

/// A sync, and a write to a part, of whichever job, keep it.
pub fn what_a_calm_step_keeps()
    ensures { CalmLaw }
{}

/// A mode that is set, of whichever job, and the sync of the thing itself keep it, with the mode before.
pub fn what_a_mode_of_a_job_keeps()
    ensures { ModeStepLaw }
{}

/// A job may begin wherever it clashes with none.
pub fn where_a_job_may_begin()
    ensures { BeginLaw }
{}

/// Paths come to rest where they are settled, as a job ends; what it leaves else is in doubt.
pub fn where_paths_come_to_rest()
    ensures { RestLaw }
{}

/// What is known of nodes may be said.
pub fn what_is_known_of_nodes()
    ensures { NodesLaw }
{}

/// What a job knows of its own paths stays so while others work elsewhere.
pub fn what_stays_while_others_work()
    ensures { OthersLaw }
{}

/// Where nothing waits for a sync, all this holds.
pub fn what_holds_at_an_opening()
    ensures { OpeningLaw }
{}

/// One job places a file, another removes something, and the first syncs its folder.
pub fn what_happens_meanwhile()
    ensures { MeanwhileLaw }
{}
