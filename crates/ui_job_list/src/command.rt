//! The keys of the list. Those that stop, resume and kill a job (`s`, `r`, `k`) come with the table of
//! jobs, and do nothing yet.
ghost use Rattle.std.specs.Prelude.{◌≡◌};
ghost use Rattle.ui_job_list.specs.JobKeys.{jobs_command};

use key_screen::{Base, Key};

/// What a key does while the jobs are listed.
#[derive(Clone, Copy, Debug, Drop, PartialEq, Eq)]
pub enum JobsCommand {
    /// Another job is current, as this key moves.
    Move(Base),
    /// Opens what the current job waits with.
    Open,
    Leave,
    Nothing,
}

/// What a key does while the jobs are listed; one with meta does nothing.
pub fn jobs_command(key: Key) -> JobsCommand
    ensures { result ≡ jobs_command key }
{
    match key.base {
        _ if key.meta => JobsCommand::Nothing,
        Base::Up | Base::Down | Base::PgUp | Base::PgDn | Base::Home | Base::End => {
            JobsCommand::Move(key.base)
        }
        Base::Enter => JobsCommand::Open,
        Base::Escape | Base::F(10) => JobsCommand::Leave,
        _ => JobsCommand::Nothing,
    }
}
