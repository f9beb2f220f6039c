//! What a line of a menu asks before an entry is shown or is the default.
ghost use Rattle.std.specs.Prelude.{◌≡◌};

use mc_text::Text;
use std::alloc::Global;
use std::marker::Model;
use tagging::Pattern;

/// Whose facts a term is about: those of the panel in which the menu is opened, or of the other one.
#[derive(Clone, Copy, Drop)]
pub enum Panel {
    Here,
    There,
}

/// What a term tests: that a pattern finds the current name, or the folder's path; that the current thing
/// has one of the types with these letters; that a name here or an absolute path leads to a program; or
/// nothing that ever holds.
#[derive(Drop)]
pub enum Test {
    Name(Panel, Pattern),
    Folder(Panel, Pattern),
    Types(Panel, Text),
    Program(Text),
    Never,
}

/// Whether a term holds where its test does, or where it doesn't.
#[derive(Clone, Copy, Drop)]
pub enum Sense {
    Plain,
    Turned,
}

/// A test, or its contrary.
#[derive(Drop)]
pub struct Term {
    pub sense: Sense,
    pub test: Test,
}

/// How a term is joined to all before it.
#[derive(Clone, Copy, Drop)]
pub enum Joint {
    And,
    Or,
}

/// A term with its joint. Before the first term nothing is asked, which holds, so it is joined by And.
#[derive(Drop)]
pub struct Joined {
    pub joint: Joint,
    pub term: Term,
}

/// Terms, joined from left to right. Without terms it asks nothing. Contracts see the list of them.
#[derive(Drop)]
pub struct Condition(pub Vec<Joined>);

impl Model for Condition {
    ghost use Rattle.std.specs.Prelude.{List};
    ghost use Rattle.user_menu.specs.declared.condition.Joined.{Joined};

    ghost Value = { List Joined };

    ghost view = { λ c. c.0.items };
}

impl Condition {
    /// The terms in their order.
    pub fn terms(&self) -> &[Joined]
        ensures { result.now ≡ self.now }
    {
        self.0.as_slice()
    }
}
