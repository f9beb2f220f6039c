//! The messages that come up over the panels.
use mc_text::Path;
use session_entries::Refusal;

/// What a message tells.
#[derive(Debug, Drop)]
pub enum Message {
    /// What was refused to a key or a look.
    Refused(Refusal),
    /// The part that a job's end left, since it could not be removed.
    PartLeft(Path),
    /// That a job ended since memory ran out, and the part that it left, if it left one.
    OutOfMemory(Option<Path>),
    /// The words of the program, and what the function keys do.
    Help,
}
