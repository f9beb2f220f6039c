//! Where a path may lead after a crash, and what is kept so that it is no more than two nodes.
ghost use Rattle.laws_crash.specs.Guarded.{GuardLaw, NamingLaw, QuietLaw, SettleLaw};
ghost use Rattle.laws_crash.specs.Possible.{FindLaw};

/// In each image a path leads where it may.
pub fn where_a_path_leads()
    ensures { FindLaw }
{}

/// In each image each path holds what it holds now, or what stood there before the work that is under way.
pub fn what_a_path_holds()
    ensures { GuardLaw }
{}

/// A step that changes no name keeps what is known.
pub fn what_a_quiet_step_keeps()
    ensures { QuietLaw }
{}

/// A step that changes names keeps it too, where it meets the demands on such a step.
pub fn what_a_change_of_names_keeps()
    ensures { NamingLaw }
{}

/// Where nothing waits for a sync the work is over, and less has to be left open.
pub fn where_work_is_over()
    ensures { SettleLaw }
{}
