//! How many jobs are in each state.
ghost use Rattle.std.specs.Prelude.{◌≡◌, ◌≤◌, ◌<◌, ◌+◌, ◌^◌, length};
ghost use Rattle.screen_frame.specs.JobsLine.{live_jobs};
ghost use Rattle.mc_ui.specs.Frames.{counts_with_job as one_more, counts_of as counts_in};

use job_reports::{JobRow, JobState};
use screen_frame::JobCounts;

/// Counts the live jobs by their states.
pub fn counts_of(rows: &[JobRow]) -> JobCounts
    ensures value { result ≡ counts_in rows.now }
    ensures all { live_jobs result ≡ length rows.now }
{
    match rows {
        [] => JobCounts {
            ready: 0,
            asking: 0,
            troubled: 0,
            stopped: 0,
        },
        [row, rest @ ..] => counted(row.state, counts_of(rest)),
    }
}

/// One job more in this state.
fn counted(state: JobState, counts: JobCounts) -> JobCounts
    requires { live_jobs counts < 2 ^ 63 }
    ensures value { result ≡ one_more state counts }
    ensures more { live_jobs result ≡ live_jobs counts + 1 }
{
    let JobCounts {
        ready,
        asking,
        troubled,
        stopped,
    } = counts;
    match state {
        JobState::Ready => JobCounts {
            ready: ready + 1,
            ..counts
        },
        JobState::Asking => JobCounts {
            asking: asking + 1,
            ..counts
        },
        JobState::Troubled => JobCounts {
            troubled: troubled + 1,
            ..counts
        },
        JobState::Stopped => JobCounts {
            stopped: stopped + 1,
            ..counts
        },
    }
}
