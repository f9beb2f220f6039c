//! A box of the panels, and what a key makes of it.
use mc_dialogs::{InputLine, ListBox};
use panel_pair::PanelCommand;
use session_entries::TypedError;

/// What an input line asks for.
#[derive(Clone, Copy, Debug, Drop, PartialEq, Eq)]
pub enum Asked {
    /// A pattern: the names that it finds are tagged.
    Select,
    /// A pattern: the names that it finds lose their tags.
    Unselect,
    /// A pattern: only files that it finds are shown; all are where the text is empty.
    Filter,
    /// The format of the rows.
    Format,
}

/// A box in which a command of the panels is chosen or typed.
#[derive(Debug, Drop)]
pub enum PanelBox {
    /// C-x was typed, and the next key says what is wanted. There is nothing to be seen of it.
    Pending,
    /// A line that asks for a text.
    Typed(Asked, InputLine),
    /// The list of what may be set.
    Options(ListBox),
}

/// What a key comes to in such a box.
#[derive(Debug, Drop)]
pub enum PanelReply {
    Stays,
    Shuts,
    /// Another box is to stand in its place.
    Opens(PanelBox),
    /// It is shut, and this is to be done.
    Does(PanelCommand),
    /// It is shut, and the live jobs are to be listed.
    ListsJobs,
    /// It is shut, and a new link is to be asked for.
    AsksLink,
    /// It is shut, and a mode is to be asked for.
    AsksMode,
    /// What was typed can't be taken. The box stays.
    Refuses(TypedError),
}
