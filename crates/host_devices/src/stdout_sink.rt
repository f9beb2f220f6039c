//! The screen, by the standard output.
ghost use Rattle.std.specs.Prelude.{None};

use crate::cause::cause_of;
use crate::device::Device;
use crate::stty::terminal_size;
use std::alloc::Global;
use std::process::Processes;
use tree_trait::{Sink, SinkError, TreeError};

/// The standard output, as a device.
#[derive(Drop)]
pub struct Stdout;

/// The standard output. It tells nothing of the bytes that it was given.
pub type StdoutSink<R> = Device<Stdout, R>;

impl<R: Print + Processes + AllocGlobal> Sink for Device<Stdout, R> {
    ghost given = { λ _. None };

    ghost fault_count = { λ count. count };

    fn put(&mut self, _alloc: Global, bytes: &[u8]) -> Result<(), SinkError> {
        let Err(error) = self.rt.write_all(bytes) else {
            return Ok(());
        };
        if cause_of(&error) == TreeError::Memory {
            return Err(SinkError::Memory);
        }
        self.faults.raise();
        Err(SinkError::Fault)
    }

    fn size(&mut self) -> Option<(u16, u16)> {
        terminal_size(&self.rt)
    }

    fn faults(&self) -> u64 {
        self.faults.count()
    }
}
