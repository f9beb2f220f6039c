//! Laws of sessions: what a crash leaves of one at each moment, and what its history tells of the tree. The
//! functions do nothing: their contracts are laws of the definitions in `specs/`.
#![tactic(auto)]

ghost use Rattle.laws_sessions.specs.CalmedLaw.{CalmLaw};
ghost use Rattle.laws_sessions.specs.LiveParts.{LivePartsLaw, NoOtherPartsLaw};
ghost use Rattle.laws_sessions.specs.OneLive.{OneLiveLaw};
ghost use Rattle.laws_sessions.specs.Owners.{OwnersLaw};
ghost use Rattle.laws_sessions.specs.Owed.{FinishedLaw, FirstChangeLaw, OwedLaw, StepLaw};
ghost use Rattle.laws_sessions.specs.SafeLaw.{ReplayLaw, SessionLaw};
ghost use Rattle.laws_sessions.specs.StayingLaw.{DoneLaw, FinishedStaysLaw, StaysLaw};
ghost use Rattle.laws_sessions.specs.WholeLaw.{WholeLaw};

/// At each moment of a session, inside a call too, each path holds after a crash what the history
/// says, or what it held before its last change, as long as that isn't on the disk; parts may be
/// missing or hold anything.
pub fn what_a_crash_leaves_of_a_session()
    ensures { SessionLaw }
{}

/// What can be seen at its end is what the history makes of the opening, but for the parts of live jobs.
pub fn what_a_session_shows()
    ensures { ReplayLaw }
{}

/// A path of which a change isn't on the disk yet lies in a dirty folder, and one whose
/// mode isn't is itself dirty.
pub fn where_doubt_lies()
    ensures { OwedLaw }
{}

/// Each such path has an owner: the job whose report named it last, a live one or one that has ended.
pub fn who_owns_what_waits()
    ensures { OwnersLaw }
{}

/// Once a job has made its first change, each change of a name that isn't on the disk yet is one of its
/// report, or waited before on another mount, or in a folder that was removed; and so is a mode. But for
/// what another live job named last.
pub fn what_a_first_change_leaves_in_doubt()
    ensures { FirstChangeLaw }
{}

/// The same in the words of the history alone: where a report of a job's first change for one of its
/// sources stands, nothing that an ended job left on its mount is in doubt, nor anything else but what that
/// report names, what another live job named last, and parts that were left.
pub fn what_a_first_change_calms()
    ensures { CalmLaw }
{}

/// While a job is live no other one is, so no path is one that another live job named last.
pub fn no_path_is_of_another()
    ensures { OneLiveLaw }
{}

/// A part that a live job named stays one, whatever another job's step brings to its path.
pub fn what_a_live_job_named_stays_a_part()
    ensures { LivePartsLaw }
{}

/// While a job is live no other one is, so no path is a part of another one.
pub fn no_part_is_of_another()
    ensures { NoOtherPartsLaw }
{}

/// A job that may report that it is finished, and has changed something, has left nothing that isn't on the
/// disk at a path of its own: one that its source touches, or a part that it named.
pub fn what_a_finished_job_leaves()
    ensures { FinishedLaw }
{}

/// A path of which no change waits for a sync waits for none at any later moment, inside a call too, until
/// an entry names it; nor does a mode.
pub fn what_stays_on_the_disk()
    ensures { StaysLaw }
{}

/// What a job that is finished did at paths of its own stays done: no crash at a later moment brings back
/// what a path held before, until an entry names that path.
pub fn what_a_finished_job_did_stays()
    ensures { FinishedStaysLaw }
{}

/// The same in the words of the history alone, once the job is done with a source: it goes on with the next
/// one, or has reported that it is finished.
pub fn what_was_finished_stays()
    ensures { DoneLaw }
{}

/// In one and the same crash image a thing that is moved is whole at its source or at its target, a folder
/// with all that lies in it, until an entry names a path that is one of the two, or lies above one or below
/// it; what stays once the job is done with it, the law before this one says.
pub fn what_a_crash_leaves_of_a_moved_thing()
    ensures { WholeLaw }
{}

/// The machine's own step is one of which such a history tells.
pub fn what_a_step_of_a_run_tells()
    ensures { StepLaw }
{}
