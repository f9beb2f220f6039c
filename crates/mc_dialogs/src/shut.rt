//! What a box answers to a key.
use mc_text::Text;

/// Whether a box is still there.
#[derive(Debug, Drop)]
pub enum Shut {
    Stay,
    Closed(Reply),
}

/// With what a box closed.
#[derive(Debug, Drop)]
pub enum Reply {
    Cancel,
    /// The text of an input line, and whether what it asks for is to run in the background.
    Line { text: Text, background: bool },
    /// The position of a row, counted from 0.
    Chosen(usize),
    /// A letter of a question.
    Letter(u8),
    /// The bits of a mode, below 4,096.
    Mode(u16),
}
