//! A clock that stands still.
ghost use Rattle.std.specs.Prelude.{◌≡◌};

use std::marker::Model;
use tree_trait::Clock;

/// A clock that always tells the same second.
#[derive(Debug, Drop)]
pub struct FixedClock {
    second: u64,
}

impl Model for FixedClock {
    ghost use Rattle.std.specs.Prelude.{ℕ};

    ghost Value = { ℕ };

    ghost view = { λ c. c.second };
}

impl FixedClock {
    /// A clock that tells this second.
    pub fn new(now: u64) -> FixedClock
        ensures { result ≡ now }
    {
        FixedClock { second: now }
    }
}

impl Clock for FixedClock {
    fn now(&self) -> u64
        ensures { result ≡ self.now }
    {
        self.second
    }
}
