//! The commands of an editor.
use mc_text::Bytes;

/// What a key asks of the text.
#[derive(Debug, Drop)]
pub enum EditCmd {
    Insert(char),
    NewLine,
    Backspace,
    DeleteUnder,
    Left,
    Right,
    Up,
    Down,
    LineStart,
    LineEnd,
    PageUp(u16),
    PageDown(u16),
    TextStart,
    TextEnd,
    Mark,
    CopyBlock,
    MoveBlock,
    DeleteBlock,
    DeleteLine,
    DeleteToEnd,
    Undo,
    Redo,
    /// Goes to the next place behind the point where the bytes stand.
    Find(Bytes),
    /// Puts the second bytes in place of each of the first, from the point on.
    ReplaceAll(Bytes, Bytes),
    /// Lines count from 1, and 0 counts as 1.
    GoLine(u64),
    /// Goes to the bracket that belongs to the one at the point.
    Bracket,
}
