//! On which side of the screen a panel stands.
ghost use Rattle.std.specs.Prelude.{◌≡◌};
ghost use Rattle.panel_pair.specs.Pairs.{opposite as other_side};

/// A side of the screen.
#[derive(Clone, Copy, Debug, Drop, PartialEq, Eq)]
pub enum Side {
    Left,
    Right,
}

impl Side {
    /// The side across.
    pub fn opposite(self) -> Side
        ensures { result ≡ other_side self }
    {
        match self {
            Side::Left => Side::Right,
            Side::Right => Side::Left,
        }
    }
}
