//! What is answered to a job that waits.

/// What is answered to a question, to a trouble and at a barrier.
#[derive(Clone, Copy, Debug, Drop, PartialEq, Eq)]
pub enum Answer {
    /// This item replaces what stands at its target.
    Yes,
    /// This item doesn't.
    No,
    /// This and each later item replaces what stands at its target.
    All,
    /// They do where the source was changed later than the target.
    Update,
    /// None does.
    Nothing,
    /// They do where source and target differ in size.
    SizeDiffers,
    /// What was refused is tried again; a file whose part stands is copied anew.
    Retry,
    /// The item is left as it is.
    Skip,
    /// So is each later one that meets a trouble of the same kind.
    SkipAll,
    Abort,
}

/// Why an answer was not taken.
#[derive(Clone, Copy, Debug, Drop, PartialEq, Eq)]
pub enum AnswerError {
    /// The job waits for no answer.
    NotAsked,
    /// It is none to the question or trouble in which the job waits. At a barrier nothing can be skipped.
    WrongAnswer,
}
