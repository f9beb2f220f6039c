//! The line of a job.
ghost use Rattle.std.specs.Prelude.{◌≡◌, string_bytes, IfOk, OnOk};
ghost use Rattle.std.specs.Fmt.{decimal};
ghost use Rattle.ui_job_list.specs.JobLines.{job_line as line_of_job, kind_word, state_word, with_word};

use job_reports::{JobKind, JobRow, JobState};
use mc_text::{NoMemory, Text};
use std::alloc::{AllocError, Global};
use std::convert::AsStr;

/// The number of a job, what it is at, what it does, and to which path.
pub fn job_line(alloc: Global, row: &JobRow) -> Result<Text, NoMemory>
    ensures { IfOk result (λ line. line ≡ line_of_job row.now) }
{
    let path = row.path.text(alloc)?;
    let mut line = number_text(alloc, row.job)?;
    push_word(&mut line, state_word(row.state))?;
    push_word(&mut line, kind_word(row.kind))?;
    push_word(&mut line, path.as_str())?;
    Ok(Text(line))
}

fn number_text(alloc: Global, number: u32) -> Result<String, AllocError>
    ensures { IfOk result (λ text. string_bytes text ≡ decimal number) }
{
    format!(in alloc; "{number}")
}

/// Adds a blank and a word.
fn push_word(line: &mut String, word: &str) -> Result<(), AllocError>
    ensures { OnOk result (string_bytes line.new ≡ with_word (string_bytes line.old) word.now) }
{
    line.push(' ')?;
    line.push_str(word)
}

fn state_word(state: JobState) -> &'static str
    ensures { result.now ≡ state_word state }
{
    match state {
        JobState::Ready => "ready",
        JobState::Asking => "asking",
        JobState::Troubled => "trouble",
        JobState::Stopped => "stopped",
    }
}

fn kind_word(kind: JobKind) -> &'static str
    ensures { result.now ≡ kind_word kind }
{
    match kind {
        JobKind::Copy => "copy",
        JobKind::Move => "move",
        JobKind::Delete => "delete",
        JobKind::MakeFolder => "mkdir",
        JobKind::MakeLink => "symlink",
        JobKind::SetMode => "chmod",
    }
}
