//! A job that a key confirmed.
ghost use Rattle.std.specs.Prelude.{◌≡◌, Some, option_map};
ghost use Rattle.session_entries.specs.Sources.{sources_of};
ghost use Rattle.session_entries.specs.SourcesLeft.{later as rest_of};
ghost use Rattle.copy_move.specs.Jobs.{begun_work};
ghost use Rattle.copy_move.specs.Told.{running};

use copy_move::Run;
use job_reports::Job;
use job_sources::Later;

/// A job that was confirmed: its plan, the job as it starts, with its first source, and the sources to come.
#[derive(Debug, Drop)]
pub struct Confirmed {
    pub plan: Job,
    pub background: bool,
    pub run: Run,
    pub later: Later,
    ghost started: { option_map (running run.id) (begun_work run.id (sources_of plan)) ≡ Some run },
    ghost rest: { later ≡ rest_of (sources_of plan) },
}
