//! What keys do to the panels, but for those that open a box, begin a job or end the session.
use key_screen::Base;
use mc_text::Path;
use panel_state::{Arrangement, PanelFormat};
use tagging::Pattern;

/// What a key does to the panels. All but `SwitchPanel`, `SwapPanels`, `Compare`,
/// `ToggleHidden` and `SwitchPatterns` are of the current one.
#[derive(Debug, Drop)]
pub enum PanelCommand {
    /// The cursor goes where this key leads.
    Move(Base),
    SwitchPanel,
    SwapPanels,
    /// Goes into the folder of the current row, or along a link to one; on anything else it does nothing.
    Enter,
    ReadAgain,
    Back,
    Forward,
    /// Goes to the folder that holds a path, with the cursor on the path's last name.
    GoTo(Path),
    /// Tags the current name, or takes its tag, and moves down.
    Toggle,
    Invert,
    Select(Pattern),
    Unselect(Pattern),
    Compare,
    Arrange(Arrangement),
    ShowColumns(PanelFormat),
    ShowBrief,
    /// Shows the hidden names of both panels, or shows them no more.
    ToggleHidden,
    /// Patterns that are typed are shell patterns from now on, or regular
    /// expressions, whichever they weren't.
    SwitchPatterns,
}
