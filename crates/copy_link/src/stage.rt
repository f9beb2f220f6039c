//! Where the copy of a link stands.

/// What comes after a part was removed.
#[derive(Clone, Copy, Debug, Drop, PartialEq, Eq)]
pub enum Next {
    /// The link is to be taken up anew, with looks and a part of its own.
    Again,
    /// The link was skipped.
    Decided,
}

/// What is to be done next.
#[derive(Clone, Copy, Debug, Drop, PartialEq, Eq)]
pub enum Stage {
    /// No part stands. The link is to be read, and one like it is to be made at the part.
    Make,
    /// The part is a link with the source's text. It is to be renamed to the target.
    Place,
    /// The part is to be removed.
    Clean { next: Next },
    /// The part could not be removed in the last steps. It stays.
    Left,
    /// The part is gone. The link is to be taken up anew.
    Again,
    /// The link was placed or skipped.
    Decided,
}
