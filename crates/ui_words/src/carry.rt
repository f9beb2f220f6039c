//! How things come to another place.

/// How things come to another place: they are copied there, or moved.
#[derive(Clone, Copy, Debug, Drop, PartialEq, Eq)]
pub enum Carry {
    Copy,
    Move,
}
