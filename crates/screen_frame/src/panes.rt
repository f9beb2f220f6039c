//! What the panels show.
ghost use Rattle.std.specs.Prelude.{◌≡◌, [], ◌∷◌, ◌++◌, OnOk, OnErr};

use key_screen::Attr;
use mc_text::{NoMemory, Text};
use std::alloc::Global;
use std::marker::Model;

/// A line of a listing.
#[derive(Drop)]
pub struct ListingLine {
    pub text: Text,
    pub look: Attr,
}

/// Lines of a listing, from the first one that is shown.
#[derive(Drop)]
pub struct ListingLines(pub Vec<ListingLine>);

impl Model for ListingLines {
    ghost use Rattle.std.specs.Prelude.{List};
    ghost use Rattle.screen_frame.specs.declared.panes.ListingLine.{ListingLine};

    ghost Value = { List ListingLine };

    ghost view = { λ l. l.0.items };
}

impl ListingLines {
    /// None yet. It takes no memory.
    pub fn new(alloc: Global) -> ListingLines
        ensures { result ≡ [] }
    {
        ListingLines(Vec::new(alloc))
    }

    /// One more at the end.
    pub fn push(&mut self, item: ListingLine) -> Result<(), NoMemory>
        ensures done { OnOk result (self.new ≡ self.old ++ item ∷ []) }
        ensures refused { OnErr result (self.new ≡ self.old) }
    {
        self.0.push(item)?;
        Ok(())
    }

    /// The lines.
    pub fn as_slice(&self) -> &[ListingLine]
        ensures { result.now ≡ self.now }
    {
        self.0.as_slice()
    }
}

/// How many columns of items stand in a pane.
#[derive(Clone, Copy)]
pub enum Shape {
    /// One.
    Full,
    /// Two: the items go down the first, and then the second.
    Brief,
}

/// What one panel shows.
#[derive(Drop)]
pub struct Pane {
    /// The text of its folder's path.
    pub title: Text,
    /// The heading of each of its columns.
    pub heading: Text,
    pub shape: Shape,
    pub items: ListingLines,
    /// The current name.
    pub name: Text,
    /// How many names can't be shown.
    pub unnamed: u64,
    pub is_current: bool,
}

/// The panels on the screen.
#[derive(Drop)]
pub enum Panes {
    /// The left one and the right one.
    Both(Pane, Pane),
    /// The current one over all columns.
    Whole(Pane),
}
