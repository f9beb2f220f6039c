//! How far the copy of a file or a link is.
ghost use Rattle.std.specs.Prelude.{◌≡◌, None};
ghost use Rattle.copy_file.specs.Copying.{part_at};
ghost use Rattle.copy_tree.specs.Progress.{link_progress, progress};

use copy_file::FileCopy;
use copy_link::{LinkCopy, Stage};

/// How far the copy of a thing is.
#[derive(Drop)]
pub enum Progress {
    /// Its part stands.
    UnderWay,
    /// It was placed or skipped.
    Decided,
    /// It is to be begun, for the first time or once more.
    Anew,
}

/// How far the copy of a file is.
pub(crate) fn progress_of(copy: &FileCopy) -> Progress
    ensures { result ≡ progress copy.now.stage }
{
    match copy.part() {
        Some(_) => Progress::UnderWay,
        None => progress_apart(copy),
    }
}

/// How far the copy of a file is whose part doesn't stand.
fn progress_apart(copy: &FileCopy) -> Progress
    requires { part_at copy.now.stage ≡ None }
    ensures { result ≡ progress copy.now.stage }
{
    if copy.is_at_barrier() {
        Progress::Decided
    } else {
        Progress::Anew
    }
}

/// How far the copy of a link is.
pub(crate) fn progress_of_link(copy: &LinkCopy) -> Progress
    ensures { result ≡ link_progress copy.now.stage }
{
    match copy.stage() {
        Stage::Place => Progress::UnderWay,
        Stage::Clean { .. } => Progress::UnderWay,
        Stage::Left => Progress::UnderWay,
        Stage::Decided => Progress::Decided,
        Stage::Make => Progress::Anew,
        Stage::Again => Progress::Anew,
    }
}
