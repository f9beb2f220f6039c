//! A screen in memory, which keeps what it was given.
ghost use Rattle.std.specs.Prelude.{◌≡◌, ◌↔◌, [], ◌++◌, None, Some, Err};
ghost use Rattle.tree_trait.specs.Answers.{HasCause, one_more};
ghost use Rattle.tree_trait.specs.Devices.{HasPut};
ghost use Rattle.mem_devices.specs.Devices.{Screen};

use std::alloc::Global;
use std::marker::Model;
use tree_trait::{Sink, SinkError};

/// A screen in memory.
#[derive(Drop)]
pub struct MemSink {
    given: Vec<u8>,
    fail_at: Option<u64>,
    called: u64,
    faults: u64,
}

impl Model for MemSink {
    ghost use Rattle.mem_devices.specs.Devices.{Screen};

    ghost Value = { Screen };

    ghost view = { λ s. record {
      given = s.given.items;
      fail_at = s.fail_at;
      called = s.called;
      faults = s.faults;
    } };
}

impl MemSink {
    /// A screen that was given nothing yet. `fail_at` is the number, counted from 1, of the call that
    /// fails. It takes no memory.
    pub fn new(alloc: Global, fail_at: Option<u64>) -> MemSink
        ensures { result ≡ record { given = []; fail_at = fail_at; called = 0; faults = 0 } }
    {
        MemSink {
            given: Vec::new(alloc),
            fail_at,
            called: 0,
            faults: 0,
        }
    }

    /// The bytes that it was given.
    pub fn bytes(&self) -> &[u8]
        ensures { result.now ≡ self.now.given }
    {
        self.given.as_slice()
    }
}

impl Sink for MemSink {
    ghost given = { λ s. Some s.given };

    ghost fault_count = { λ s. s.faults };

    fn put(&mut self, _alloc: Global, bytes: &[u8]) -> Result<(), SinkError>
        ensures answer { HasPut self.old.given bytes.now result (Some self.new.given) }
        ensures cause { HasCause SinkError.Fault self.old.faults self.new.faults result }
        ensures called { self.new.called ≡ one_more self.old.called }
        ensures named { self.new.fail_at ≡ self.old.fail_at }
        ensures fails { (result ≡ Err SinkError.Fault)
            ↔ (self.old.fail_at ≡ Some (one_more self.old.called)) }
    {
        self.called = self.called.saturating_add(1);
        if self.fail_at == Some(self.called) {
            self.faults = self.faults.saturating_add(1);
            return Err(SinkError::Fault);
        }
        match self.given.extend_from_slice(bytes) {
            Err(_) => Err(SinkError::Memory),
            Ok(()) => Ok(()),
        }
    }

    fn size(&mut self) -> Option<(u16, u16)>
        ensures untouched { self.new ≡ self.old }
        ensures unknown { result ≡ None }
    {
        None
    }

    fn faults(&self) -> u64 {
        self.faults
    }
}
