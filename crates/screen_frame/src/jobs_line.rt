//! The line of jobs.
ghost use Rattle.std.specs.Prelude.{◌≡◌, ◌<◌, ◌^◌, ◌++◌, string_bytes, IfOk, OnOk};
ghost use Rattle.std.specs.Fmt.{decimal};
ghost use Rattle.screen_frame.specs.JobsLine.{live_jobs, jobs_text};

use mc_text::{NoMemory, Text};
use std::alloc::{AllocError, Global};

/// How many live jobs are in each state.
#[derive(Clone, Copy)]
pub struct JobCounts {
    pub ready: usize,
    pub asking: usize,
    pub troubled: usize,
    pub stopped: usize,
}

/// What is said of the live jobs; nothing where there are none.
#[tactic(auto, unfolding(crate::specs::JobsLine::jobs_text))]
pub fn jobs_text(alloc: Global, jobs: &JobCounts) -> Result<Text, NoMemory>
    requires { live_jobs jobs.now < 2 ^ 64 }
    ensures { IfOk result (λ text. text ≡ jobs_text jobs.now) }
{
    let live = jobs.ready + jobs.asking + jobs.troubled + jobs.stopped;
    if live == 0 {
        return Text::from_str(alloc, "");
    }
    let mut text = String::from_str(alloc, "Jobs ")?;
    push_count(&mut text, live, ": ")?;
    push_count(&mut text, jobs.ready, " ready, ")?;
    push_count(&mut text, jobs.asking, " asking, ")?;
    push_count(&mut text, jobs.troubled, " in trouble, ")?;
    push_count(&mut text, jobs.stopped, " stopped")?;
    Ok(Text(text))
}

/// Puts a count and what stands behind it at the end of a text.
fn push_count(text: &mut String, count: usize, behind: &str) -> Result<(), AllocError>
    ensures { OnOk result (string_bytes text.new ≡ string_bytes text.old ++ decimal count ++ behind.now) }
{
    write!(text, "{count}")?;
    text.push_str(behind)
}
