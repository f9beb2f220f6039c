//! What the macros of a command speak of.
use mc_text::{Names, Path, Text};

/// One panel: its folder, the name of its current row, and its tagged names in the order of the panel.
#[derive(Debug, Drop)]
pub struct Side {
    pub folder: Path,
    pub current: Text,
    pub tagged: Names,
}

/// Both panels: the one in which the command is given, and the other.
#[derive(Debug, Drop)]
pub struct Context {
    pub here: Side,
    pub other: Side,
}
