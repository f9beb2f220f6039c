//! The list of a bracket, as `[a-z_]` or `[!a-z_]`.
ghost use Rattle.std.specs.Prelude.{◌≡◌};
ghost use Rattle.std.specs.List.{list_any};
ghost use Rattle.tagging.specs.Brackets.{spans_over, holds};

use std::marker::Model;

/// The characters from one code point to another, both included. One that ends before it starts holds none.
#[derive(Clone, Copy, Debug, Drop, PartialEq, Eq)]
pub struct Span {
    pub from: char,
    pub to: char,
}

impl Span {
    /// Whether the character lies in the range.
    pub fn holds(self, character: char) -> bool
        ensures { result ≡ spans_over character self }
    {
        self.from <= character && character <= self.to
    }
}

/// What a bracket stands for: one character of its list, or where it begins with `!` one
/// that is not of its list.
#[derive(Debug, Drop)]
pub struct BracketSet {
    negated: bool,
    spans: Vec<Span>,
}

impl Model for BracketSet {
    ghost use Rattle.tagging.specs.Brackets.{Bracket};

    ghost Value = { Bracket };

    ghost view = { λ b. record { negated = b.negated; spans = b.spans.items } };
}

impl BracketSet {
    /// The set of these ranges, or of all that they leave out.
    pub fn new(negated: bool, spans: Vec<Span>) -> BracketSet
        ensures { result ≡ record { negated = negated; spans = spans.items } }
    {
        BracketSet { negated, spans }
    }

    /// Whether the bracket stands for the character.
    pub fn holds(&self, character: char) -> bool
        ensures { result ≡ holds self.now character }
    {
        let listed = lists(self.spans.as_slice(), character);
        if self.negated { !listed } else { listed }
    }
}

/// Whether the character lies in one of the ranges.
fn lists(spans: &[Span], character: char) -> bool
    ensures { result ≡ list_any (spans_over character) spans.now }
{
    spans.iter().any(|span| span.holds(character))
}
