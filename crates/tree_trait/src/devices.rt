//! The other devices of a session: where keys come from, where the screen's bytes go, who runs
//! commands, and the clock.
ghost use Rattle.std.specs.Prelude.{◌≡◌, ℕ, ◌≤◌, List, length, Option, None, IfOk};
ghost use Rattle.tree_trait.specs.Answers.{HasCause, IfKnown};
ghost use Rattle.tree_trait.specs.Devices.{HasTaken, is_next, HasPut, HasRun};
ghost use Rattle.tree_trait.specs.declared.devices.Command.{Command};

use mc_text::{Bytes, Path, Text};
use std::alloc::Global;
use std::marker::Model;
use thiserror::Error;

/// The source of keys failed; its count of faults has risen.
#[derive(Clone, Copy, Debug, Drop, Error, PartialEq, Eq)]
#[error("device fault")]
pub struct SourceFault;

/// Why bytes were not put.
#[derive(Clone, Copy, Debug, Drop, Error, PartialEq, Eq)]
pub enum SinkError {
    /// The device failed; its count of faults has risen.
    #[error("device fault")]
    Fault,
    #[error("out of memory")]
    Memory,
}

/// Why a command has no outcome.
#[derive(Clone, Copy, Debug, Drop, Error, PartialEq, Eq)]
pub enum SpawnError {
    /// The device failed; its count of faults has risen.
    #[error("device fault")]
    Fault,
    #[error("out of memory")]
    Memory,
}

/// How a command ended: its exit code, -1 where it has none, and the first 1,048,576 bytes that it wrote.
#[derive(Debug, Drop)]
pub struct RunOutcome {
    pub status: i32,
    pub output: Bytes,
}

/// The most bytes of a command's output that are kept.
pub const OUTPUT_BYTES: usize = 1_048_576;

/// A command for the shell, and the folder in which it runs.
#[derive(Debug, Drop)]
pub struct Command {
    pub folder: Path,
    pub command: Text,
}

/// Some commands, in the order in which they ran.
#[derive(Debug, Drop)]
pub struct Commands(pub Vec<Command>);

impl Model for Commands {
    ghost use Rattle.std.specs.Prelude.{List};
    ghost use Rattle.tree_trait.specs.declared.devices.Command.{Command};

    ghost Value = { List Command };

    ghost view = { λ c. c.0.items };
}

/// Where keys come from.
pub trait Source {
    /// The bytes that are still to come, where they are known.
    ghost left: { Self → Option (List ℕ) };

    /// How often the source has failed.
    ghost fault_count: { Self → ℕ };

    /// Takes at least one byte, and as many as are there and `into` has room for. With room it takes none
    /// exactly at the end of the stream. It takes no memory, and may wait.
    fn take(&mut self, into: &mut [u8]) -> Result<usize, SourceFault>
        ensures answer { IfKnown (left self.old) (λ bytes. HasTaken bytes into.new result (left self.new)) }
        ensures stays_unknown { left self.old ≡ None → left self.new ≡ None }
        ensures in_room { IfOk result (λ count. count ≤ length into.old) }
        ensures cause { HasCause (record {}) (fault_count self.old) (fault_count self.new) result };

    /// Whether the byte that a call of `take` would give at once is this one. It takes nothing, and
    /// doesn't wait.
    fn next_is(&mut self, byte: u8) -> bool
        ensures answer { IfKnown (left self.old) (λ bytes. result ≡ is_next byte bytes) }
        ensures stays { left self.new ≡ left self.old }
        ensures counts { fault_count self.new ≡ fault_count self.old };

    /// How often the source has failed. It stays at its last value.
    fn faults(&self) -> u64
        ensures { result ≡ fault_count self.now };
}

/// Where the screen's bytes go.
pub trait Sink {
    /// The bytes that it was given, where they are known.
    ghost given: { Self → Option (List ℕ) };

    /// How often the sink has failed.
    ghost fault_count: { Self → ℕ };

    /// Puts bytes. A refused call has put a front of them.
    fn put(&mut self, alloc: Global, bytes: &[u8]) -> Result<(), SinkError>
        ensures answer { IfKnown (given self.old) (λ before.
            HasPut before bytes.now result (given self.new)) }
        ensures stays_unknown { given self.old ≡ None → given self.new ≡ None }
        ensures cause { HasCause SinkError.Fault (fault_count self.old) (fault_count self.new) result };

    /// How many lines and columns the screen has now, where it says so. It puts nothing.
    fn size(&mut self) -> Option<(u16, u16)>
        ensures stays { given self.new ≡ given self.old }
        ensures counts { fault_count self.new ≡ fault_count self.old };

    /// How often the sink has failed. It stays at its last value.
    fn faults(&self) -> u64
        ensures { result ≡ fault_count self.now };
}

/// Who runs commands.
pub trait Spawner {
    /// The commands that it ran, where they are known.
    ghost runs: { Self → Option (List Command) };

    /// How often the spawner has failed.
    ghost fault_count: { Self → ℕ };

    /// Runs a command in a folder, with no input, and waits for its end.
    fn run(&mut self, alloc: Global, folder: &Path, command: &str) -> Result<RunOutcome, SpawnError>
        ensures answer { IfKnown (runs self.old) (λ before.
            HasRun before (record { folder = folder.now; command = command.now }) result (runs self.new)) }
        ensures stays_unknown { runs self.old ≡ None → runs self.new ≡ None }
        ensures kept { IfOk result (λ outcome. length outcome.output ≤ OUTPUT_BYTES) }
        ensures cause { HasCause SpawnError.Fault (fault_count self.old) (fault_count self.new) result };

    /// How often the spawner has failed. It stays at its last value.
    fn faults(&self) -> u64
        ensures { result ≡ fault_count self.now };
}

/// The clock.
pub trait Clock {
    /// Seconds since 1970-01-01 UTC, or any other number.
    fn now(&self) -> u64;
}
