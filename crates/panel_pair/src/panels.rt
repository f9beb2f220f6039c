//! The two panels, and the side on which the current one stands.
ghost use Rattle.std.specs.Prelude.{◌≡◌};
ghost use Rattle.panel_pair.specs.Pairs.{left_panel, right_panel, untagged_pair};

use crate::side::Side;
use panel_state::Panel;
use std::marker::Model;
use tagging::PatternKind;

/// The two panels. The current one stands on a side of the screen, and the other one on the opposite side.
/// They know how a pattern is read that is typed for them.
#[derive(Drop)]
pub struct Panels {
    pub(crate) current: Panel,
    pub(crate) other: Panel,
    pub(crate) side: Side,
    pub(crate) patterns: PatternKind,
}

impl Model for Panels {
    ghost use Rattle.panel_pair.specs.Pairs.{PairState};

    ghost Value = { PairState };

    ghost view = { λ p. record {
      current = p.current;
      other = p.other;
      side = p.side;
      patterns = p.patterns;
    } };
}

impl Panels {
    /// The current panel.
    pub fn current(&self) -> &Panel
        ensures { result.now ≡ self.now.current }
    {
        &self.current
    }

    /// The other one.
    pub fn other(&self) -> &Panel
        ensures { result.now ≡ self.now.other }
    {
        &self.other
    }

    /// The side on which the current one stands.
    pub fn side(&self) -> Side
        ensures { result ≡ self.now.side }
    {
        self.side
    }

    /// How a pattern is read that is typed.
    pub fn patterns(&self) -> PatternKind
        ensures { result ≡ self.now.patterns }
    {
        self.patterns
    }

    /// The left panel.
    pub fn left(&self) -> &Panel
        ensures { result.now ≡ left_panel self.now }
    {
        match self.side {
            Side::Left => &self.current,
            Side::Right => &self.other,
        }
    }

    /// The right panel.
    pub fn right(&self) -> &Panel
        ensures { result.now ≡ right_panel self.now }
    {
        match self.side {
            Side::Left => &self.other,
            Side::Right => &self.current,
        }
    }

    /// Takes all tags of the current panel. It takes no memory.
    pub fn untag(&mut self)
        ensures { self.new ≡ untagged_pair self.old }
    {
        self.current.untag();
    }
}
