//! What conditions are asked of.
use mc_text::{Kind, Path, Text};

/// A panel: the name of its current thing, with its kind and mode, the panel's folder, and
/// whether some name is tagged.
#[derive(Debug, Drop)]
pub struct Fact {
    pub name: Text,
    pub folder: Path,
    pub kind: Kind,
    pub mode: u16,
    pub tagged: bool,
}
