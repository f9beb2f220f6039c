//! The format of a listing: which fields a row shows, and how wide.
ghost use Rattle.std.specs.Prelude.{◌≡◌};

use std::marker::Model;

/// The format that panels have at first.
pub const FULL_FORMAT: &str = "half type name | size | mtime";

/// What a column shows.
#[derive(Clone, Copy, Debug, Drop, PartialEq, Eq)]
pub enum Field {
    Name,
    Size,
    /// The size, but for folders `SUB-DIR`.
    FileSize,
    /// One character that tells what kind of thing it is.
    TypeLetter,
    Mtime,
    Permissions,
    /// A star where the name is tagged.
    Mark,
    Space,
    Bar,
}

/// A field, and the width that was asked for.
#[derive(Clone, Copy, Debug, Drop)]
pub struct Column {
    pub field: Field,
    pub width: Option<u8>,
}

/// The columns of a row, and whether the panel has the whole screen. Contracts see both.
#[derive(Debug, Drop)]
pub struct Format {
    full: bool,
    columns: Vec<Column>,
}

impl Model for Format {
    ghost use Rattle.panel_listing.specs.FormatTexts.{RowFormat};

    ghost Value = { RowFormat };

    ghost view = { λ f. record { full = f.full; columns = f.columns.items } };
}

impl Format {
    /// The format of these columns.
    pub(crate) fn of(full: bool, columns: Vec<Column>) -> Format
        ensures { result ≡ record { full = full; columns = columns.items } }
    {
        Format { full, columns }
    }

    /// Whether the panel has the whole screen.
    pub fn is_full(&self) -> bool
        ensures { result ≡ self.now.full }
    {
        self.full
    }

    /// The columns, from the left.
    pub fn columns(&self) -> &[Column]
        ensures { result.now ≡ self.now.columns }
    {
        self.columns.as_slice()
    }
}
