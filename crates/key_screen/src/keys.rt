//! Keys, and what one byte of the terminal completes.

/// What a key is, apart from meta.
#[derive(Clone, Copy, Debug, PartialEq, Eq)]
pub enum Base {
    /// A character that isn't a control, of ASCII or beyond.
    Char(char),
    /// Control with the ASCII character of this code: a lower-case letter, `@`, `\`, `]`, `^` or `_`.
    Ctrl(u8),
    /// A function key, 1 to 10.
    F(u8),
    Up,
    Down,
    Left,
    Right,
    Home,
    End,
    Insert,
    Delete,
    PgUp,
    PgDn,
    Enter,
    Tab,
    Backspace,
    Escape,
    /// Bytes that spell no other key.
    Unknown,
}

/// A key.
#[derive(Clone, Copy, Debug, PartialEq, Eq)]
pub struct Key {
    pub meta: bool,
    pub base: Base,
}

/// The keys that one byte completes: none, one, or two, of which the first is unknown.
#[derive(Clone, Copy, Debug, PartialEq, Eq)]
pub struct Fed {
    pub first: Option<Key>,
    pub second: Option<Key>,
}
