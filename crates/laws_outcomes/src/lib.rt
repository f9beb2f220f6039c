//! Laws of what a job leaves of a source with which it is done. The functions do nothing: their contracts
//! are laws of the definitions in `specs/`.
#![tactic(auto)]

ghost use Rattle.laws_outcomes.specs.OthersLaw.{NoOthersLaw};
ghost use Rattle.laws_outcomes.specs.OutcomeLaws.{AllSourcesLaw, AnsweredLaw, KeepsLaw};
ghost use Rattle.laws_outcomes.specs.OutcomeLaws.{KeptLaw, OutcomeLaw, UntouchedLaw};

/// Where a job is done with one of its sources, all that it was to do with it is done, but for what it
/// passed over; and that is still so at its end, where no later one touches what concerns that source.
pub fn what_a_finished_job_has_done()
    ensures done { OutcomeLaw }
    ensures with_all { AllSourcesLaw }
{}

/// And none of its reports changes a path that it doesn't touch for that source, so that shows what it showed
/// where the job began with it, but for what other jobs named; where it kept the file or the link at its
/// target, or merged a folder with that there, each path does.
pub fn what_a_finished_job_left_alone()
    ensures untouched { UntouchedLaw }
    ensures kept { KeptLaw }
{}

/// While a job is at its source no other one names a path, as long as one is live at a time.
pub fn what_others_name_meanwhile()
    ensures { NoOthersLaw }
{}

/// What a copy or a move replaces, keeps or asks about at its target is as was answered to it. A folder
/// that it merges is merged whole, and an emptied folder is removed only where nothing lies in it, and kept
/// only where something does.
pub fn what_was_answered_decides()
    ensures { AnsweredLaw }
{}

/// What a power cut leaves of a session, at each moment, inside a call too: what is copied is as it was; a
/// target has what stood there, or the new thing, whole; what is moved is whole at its source or at its
/// target; what is deleted is whole or gone; and all else is as it was.
pub fn what_a_power_cut_leaves()
    ensures { KeepsLaw }
{}
