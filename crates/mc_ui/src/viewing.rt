//! A file that is viewed on the whole screen.
use ui_viewer::ViewerMode;

/// What leaving a viewed file does.
#[derive(Clone, Copy, Debug, Drop, PartialEq, Eq)]
pub enum Leaving {
    /// It comes back to what stands below.
    ToPanels,
    /// It ends the session.
    Ends,
}

/// A file that is viewed, and what leaving it does.
#[derive(Debug, Drop)]
pub struct ViewedFile {
    pub mode: ViewerMode,
    pub leaving: Leaving,
}
