//! A save that goes on.

/// A save that was asked for, and is neither finished nor failed.
#[derive(Clone, Copy, Debug, Drop, PartialEq, Eq)]
pub struct Saving {
    /// The editor is left once it is finished.
    pub leaves: bool,
}
