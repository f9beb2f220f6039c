//! What a session starts with, and why it may not start.
use mc_text::Path;
use resolving::ResolveError;
use thiserror::Error;

/// What a session starts with, and the size of the screen.
#[derive(Debug, Drop)]
pub struct Start {
    pub mode: StartMode,
    /// For what a typed tilde stands, where that is known.
    pub home: Option<Path>,
    pub lines: u16,
    pub columns: u16,
}

/// What a session starts with.
#[derive(Debug, Drop)]
pub enum StartMode {
    /// Two panels, of the folders that these paths lead to.
    Panels { left: Path, right: Path },
    /// The viewer on the file that this path leads to. The session has no panels: leaving the viewer ends it.
    View(Path),
}

/// Which of its paths: that of a panel, or of the file that is viewed.
#[derive(Clone, Copy, Debug, Drop, PartialEq, Eq)]
pub enum StartPlace {
    Left,
    Right,
    File,
}

/// Why a session did not start.
#[derive(Debug, Drop, Error)]
pub enum StartError {
    /// This path leads to no folder that can be listed, or to no file that can be read.
    #[error("{1}")]
    Resolve(StartPlace, ResolveError),
    #[error("out of memory")]
    Memory,
}
