//! A source of keys in memory.
ghost use Rattle.std.specs.Prelude.{◌≡◌, ◌↔◌, ◌≤◌, length, Some, Err, IfOk};
ghost use Rattle.tree_trait.specs.Answers.{HasCause, one_more};
ghost use Rattle.tree_trait.specs.Devices.{HasTaken, is_next};
ghost use Rattle.mem_devices.specs.Devices.{Keys};

use mc_text::Bytes;
use std::marker::Model;
use tree_trait::{Source, SourceFault};

/// A source of keys in memory.
#[derive(Drop)]
pub struct MemSource {
    bytes: Bytes,
    /// How many of the bytes were taken.
    taken: usize,
    fail_at: Option<u64>,
    called: u64,
    faults: u64,
}

impl Model for MemSource {
    ghost use Rattle.std.specs.Prelude.{drop, ◌≤◌, length};
    ghost use Rattle.mem_devices.specs.Devices.{Keys};

    ghost Value = { Keys };

    ghost view = { λ s. record {
      left = drop s.taken s.bytes;
      fail_at = s.fail_at;
      called = s.called;
      faults = s.faults;
    } };

    ghost invariant = { λ s. s.taken ≤ length s.bytes };
}

impl MemSource {
    /// A source of these bytes. `fail_at` is the number, counted from 1, of the call that fails.
    pub fn new(bytes: Bytes, fail_at: Option<u64>) -> MemSource
        ensures { result ≡ record { left = bytes; fail_at = fail_at; called = 0; faults = 0 } }
    {
        MemSource {
            bytes,
            taken: 0,
            fail_at,
            called: 0,
            faults: 0,
        }
    }
}

impl Source for MemSource {
    ghost left = { λ s. Some s.left };

    ghost fault_count = { λ s. s.faults };

    fn take(&mut self, into: &mut [u8]) -> Result<usize, SourceFault>
        ensures answer { HasTaken self.old.left into.new result (Some self.new.left) }
        ensures in_room { IfOk result (λ count. count ≤ length into.old) }
        ensures cause { HasCause (record {}) self.old.faults self.new.faults result }
        ensures called { self.new.called ≡ one_more self.old.called }
        ensures named { self.new.fail_at ≡ self.old.fail_at }
        ensures fails { (result ≡ Err (record {})) ↔ (self.old.fail_at ≡ Some (one_more self.old.called)) }
    {
        self.called = self.called.saturating_add(1);
        if self.fail_at == Some(self.called) {
            self.faults = self.faults.saturating_add(1);
            return Err(SourceFault);
        }
        let left = &self.bytes.0.as_slice()[self.taken..];
        let count = left.len().min(into.len());
        into[..count].copy_from_slice(&left[..count]);
        self.taken += count;
        Ok(count)
    }

    fn next_is(&mut self, byte: u8) -> bool
        ensures answer { result ≡ is_next byte self.old.left }
        ensures untouched { self.new ≡ self.old }
    {
        match self.bytes.0.as_slice()[self.taken..].first() {
            Some(next) => *next == byte,
            None => false,
        }
    }

    fn faults(&self) -> u64 {
        self.faults
    }
}
