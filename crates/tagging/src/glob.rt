//! Shell patterns: `*`, `?`, brackets and plain characters.
ghost use Rattle.std.specs.Prelude.{◌≡◌, ◌↔◌, IsTrue, chars, IfOk};
ghost use Rattle.tagging.specs.Globs.{stands_for, is_wild, is_match, MatchesGlob};

use crate::bracket::BracketSet;
use crate::walk::matches_parts;
use std::marker::Model;

/// A part of a shell pattern.
#[derive(Debug, Drop)]
pub enum GlobPart {
    /// This character alone.
    Plain(char),
    /// `?`: any one character.
    AnyOne,
    /// `*`: any characters, also none.
    AnyText,
    /// `[..]`: one character that the bracket stands for.
    OneOf(BracketSet),
}

impl GlobPart {
    /// Whether the part, where it isn't `*`, stands for this one character.
    pub fn stands_for(&self, character: char) -> bool
        ensures { result ≡ stands_for self.now character }
    {
        match self {
            GlobPart::Plain(plain) => *plain == character,
            GlobPart::AnyOne | GlobPart::AnyText => true,
            GlobPart::OneOf(bracket) => bracket.holds(character),
        }
    }

    /// Whether what the part takes is captured.
    pub fn is_wild(&self) -> bool
        ensures { result ≡ is_wild self.now }
    {
        match self {
            GlobPart::Plain(_) => false,
            GlobPart::AnyOne | GlobPart::AnyText | GlobPart::OneOf(_) => true,
        }
    }
}

/// A shell pattern. Contracts see the list of its parts.
#[derive(Debug, Drop)]
pub struct ShellPattern {
    parts: Vec<GlobPart>,
}

impl Model for ShellPattern {
    ghost use Rattle.std.specs.Prelude.{List};
    ghost use Rattle.tagging.specs.declared.glob.GlobPart.{GlobPart};

    ghost Value = { List GlobPart };

    ghost view = { λ p. p.parts.items };
}

impl ShellPattern {
    /// The pattern of these parts.
    pub fn from_parts(parts: Vec<GlobPart>) -> ShellPattern
        ensures { result ≡ parts.items }
    {
        ShellPattern { parts }
    }

    /// The parts, in their order.
    pub fn parts(&self) -> &[GlobPart]
        ensures { result.now ≡ self.now }
    {
        self.parts.as_slice()
    }

    /// Whether the pattern matches the whole name. It takes no memory, and at worst a time that grows as
    /// the number of parts times the name's length.
    pub fn matches(&self, name: &str) -> bool
        ensures cut { IsTrue result ↔ MatchesGlob self.now (chars name.now) }
        ensures test { result ≡ is_match self.now (chars name.now) }
    {
        matches_parts(self.parts.as_slice(), name)
    }
}
