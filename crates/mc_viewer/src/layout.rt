//! How a file is cut into rows.

/// The shape of rows: lines that are wrapped, lines in one row each, or sixteen bytes in hexadecimal.
#[derive(Clone, Copy, Debug, Drop, PartialEq, Eq)]
pub enum Shape {
    Wrapped,
    Unwrapped,
    Hex,
}

/// How rows are cut and shown: their shape, the columns of the screen, and the first column in sight of a
/// line that isn't wrapped.
#[derive(Clone, Copy, Debug, Drop)]
pub struct Layout {
    pub shape: Shape,
    pub columns: u16,
    pub left: u32,
}
