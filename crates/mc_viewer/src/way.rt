//! From which row a step leads, and how far.

/// The place in the row from which a step leads: a byte, where a line begins that so many others
/// stand before, or the end.
#[derive(Clone, Copy, Debug)]
pub enum Start {
    Byte(u64),
    Line(u64),
    End,
}

/// How far a step leads from that row.
#[derive(Clone, Copy, Debug)]
pub enum Way {
    Nowhere,
    Down(u16),
    Up(u16),
}
