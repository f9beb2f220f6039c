//! How often a device has failed.
ghost use Rattle.std.specs.Prelude.{◌≡◌, ◌+◌, ◌-◌, ◌^◌, ◌≤◌, min};

use std::marker::Model;

/// A count of faults, which stays at its last value.
#[derive(Drop)]
pub struct Faults {
    count: u64,
}

impl Model for Faults {
    ghost use Rattle.std.specs.Prelude.{ℕ};

    ghost Value = { ℕ };

    ghost view = { λ f. f.count };
}

impl Faults {
    /// No fault yet.
    pub fn new() -> Faults
        ensures { result ≡ 0 }
    {
        Faults { count: 0 }
    }

    /// One more.
    pub fn raise(&mut self)
        ensures counted { self.new ≡ min (self.old + 1) (2 ^ 64 - 1) }
        ensures kept { self.old ≤ self.new }
    {
        self.count = self.count.saturating_add(1);
    }

    /// How many there were.
    pub fn count(&self) -> u64
        ensures { result ≡ self.now }
    {
        self.count
    }
}
