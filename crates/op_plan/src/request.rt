//! What a user asks for, as it was typed and selected.
use mc_text::{Bytes, Path, Paths, Text};

/// What is asked for.
#[derive(Debug, Drop)]
pub enum Request {
    /// Copies the sources that the mask matches to where `to` leads, typed in the folder `from`.
    Copy {
        sources: Paths,
        mask: Text,
        from: Path,
        to: Text,
    },
    /// Moves them.
    Move {
        sources: Paths,
        mask: Text,
        from: Path,
        to: Text,
    },
    Delete {
        sources: Paths,
    },
    MakeFolder {
        from: Path,
        to: Text,
    },
    SetMode {
        sources: Paths,
        mode: u16,
    },
    /// Makes a link at `to` that says `text`.
    MakeLink {
        from: Path,
        to: Text,
        text: Text,
    },
    Save {
        path: Path,
        bytes: Bytes,
    },
}
