//! The keys that come by the standard input.
ghost use Rattle.std.specs.Prelude.{◌≡◌, None};

use crate::faults::Faults;
use crate::keyboard::Keyboard;
use std::io::Input;
use std::marker::Model;
use std::process::Processes;
use tree_trait::{Source, SourceFault};

/// The standard input. Contracts see how often it has failed. It tells nothing of the
/// bytes that are still to come.
#[derive(Drop)]
pub struct StdinSource<R: Input> {
    keyboard: Keyboard<R>,
    faults: Faults,
}

impl<R: Input> Model for StdinSource<R> {
    ghost use Rattle.std.specs.Prelude.{ℕ};

    ghost Value = { ℕ };

    ghost view = { λ s. s.faults };
}

impl<R: Input> StdinSource<R> {
    /// The standard input that this runtime reaches. It takes no memory.
    pub fn new(rt: R) -> StdinSource<R>
        ensures { result ≡ 0 }
    {
        StdinSource {
            keyboard: Keyboard::new(rt),
            faults: Faults::new(),
        }
    }
}

impl<R: Input + Processes + AllocGlobal> Source for StdinSource<R> {
    ghost left = { λ _. None };

    ghost fault_count = { λ count. count };

    fn take(&mut self, into: &mut [u8]) -> Result<usize, SourceFault> {
        match self.keyboard.read(into) {
            Ok(count) => Ok(count),
            Err(_) => {
                self.faults.raise();
                Err(SourceFault)
            }
        }
    }

    fn next_is(&mut self, byte: u8) -> bool {
        self.keyboard.next_is(byte)
    }

    fn faults(&self) -> u64 {
        self.faults.count()
    }
}
