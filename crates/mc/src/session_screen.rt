//! The screen of a session: the terminal's other one, without a cursor. What stood on the terminal before is
//! there again at the end.
ghost use Rattle.std.specs.Prelude.{◌≡◌, None};

use host_devices::StdoutSink;
use std::alloc::Global;
use std::marker::Model;
use std::process::Processes;
use tree_trait::{Sink, SinkError};

/// The standard output. Before its first frame, which begins with an escape, it goes to the terminal's other
/// screen and hides the cursor; so a line that is printed in place of a session stays. Contracts see how
/// often it has failed.
#[derive(Drop)]
pub struct SessionScreen<R> {
    output: StdoutSink<R>,
    has_entered: bool,
}

impl<R> Model for SessionScreen<R> {
    ghost use Rattle.std.specs.Prelude.{ℕ};

    ghost Value = { ℕ };

    ghost view = { λ s. s.output };
}

impl<R> SessionScreen<R> {
    /// The standard output, on the terminal's first screen yet.
    pub fn new(output: StdoutSink<R>) -> SessionScreen<R>
        ensures { result ≡ output }
    {
        SessionScreen {
            output,
            has_entered: false,
        }
    }

    /// Whether it went to the terminal's other screen.
    pub fn has_entered(&self) -> bool {
        self.has_entered
    }
}

impl<R: Print + Processes + AllocGlobal> Sink for SessionScreen<R> {
    ghost given = { λ _. None };

    ghost fault_count = { λ count. count };

    fn put(&mut self, alloc: Global, bytes: &[u8]) -> Result<(), SinkError> {
        if !self.has_entered && matches!(bytes, [0x1b, ..]) {
            self.output.put(alloc, b"\x1b[?1049h\x1b[?25l")?;
            self.has_entered = true;
        }
        self.output.put(alloc, bytes)
    }

    fn size(&mut self) -> Option<(u16, u16)> {
        self.output.size()
    }

    fn faults(&self) -> u64 {
        self.output.faults()
    }
}
