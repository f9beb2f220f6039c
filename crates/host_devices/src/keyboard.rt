//! The keyboard: reads that wait for a byte, and the question which byte is there.
ghost use Rattle.std.specs.Prelude.{◌≤◌, length, IfOk};

use crate::read::read_once;
use crate::stty::{read_at_once, read_with_waiting};
use std::io;
use std::io::Input;
use std::process::Processes;

/// What a read does while no byte is there.
#[derive(Clone, Copy, Debug, Drop, PartialEq, Eq)]
enum Reading {
    /// It waits for one.
    Waits,
    /// It answers at once, since the terminal was made so.
    Polls,
    /// It waits for one, and the input is no terminal that could be made otherwise.
    OnlyWaits,
}

/// The standard input. Once it was asked for its next byte its terminal doesn't wait, until it is read.
#[derive(Drop)]
pub struct Keyboard<R: Input> {
    rt: R,
    reader: R::Reader,
    reading: Reading,
    /// The byte that was read to answer which one is next.
    next: Option<u8>,
}

impl<R: Input> Keyboard<R> {
    /// The standard input that this runtime reaches. It takes no memory.
    pub fn new(rt: R) -> Keyboard<R> {
        let reader = rt.reader();
        Keyboard {
            rt,
            reader,
            reading: Reading::Waits,
            next: None,
        }
    }
}

impl<R: Input + Processes + AllocGlobal> Keyboard<R> {
    /// Reads at least one byte, or none at the end of the stream. It may wait.
    pub fn read(&mut self, into: &mut [u8]) -> io::Result<usize>
        ensures { IfOk result (λ count. count ≤ length into.new) }
    {
        if let (Some(byte), Some(first)) = (self.next, into.first_mut()) {
            *first = byte;
            self.next = None;
            return Ok(1);
        }
        if self.reading == Reading::Polls {
            read_with_waiting(&self.rt)?;
            self.reading = Reading::Waits;
        }
        read_once(&mut self.reader, into)
    }

    /// Whether a read would give this byte first, and at once.
    pub fn next_is(&mut self, byte: u8) -> bool {
        if self.next.is_none() {
            self.poll();
        }
        self.next == Some(byte)
    }

    /// Reads the next byte, if it is there.
    fn poll(&mut self) {
        if self.reading == Reading::Waits {
            self.reading = match read_at_once(&self.rt) {
                Ok(()) => Reading::Polls,
                Err(_) => Reading::OnlyWaits,
            };
        }
        let mut into = [0u8; 1];
        if self.reading == Reading::Polls
            && let Ok(1) = read_once(&mut self.reader, &mut into)
        {
            self.next = Some(into[0]);
        }
    }
}
