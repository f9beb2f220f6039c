//! One read of bytes of the system, whoever holds them.
ghost use Rattle.std.specs.Prelude.{◌≤◌, length, IfOk};

use std::io;
use std::io::{ErrorKind, Read};

/// The most turns of a loop over what the system gives: a folder's names, a command's
/// output, or interrupted reads.
pub const TURNS: u64 = 4_294_967_296;

/// Reads once, and once more where a signal came in between.
pub fn read_once<I: Read>(reader: &mut I, into: &mut [u8]) -> io::Result<usize>
    ensures { IfOk result (λ count. count ≤ length into.new) }
{
    for _ in 0..TURNS {
        match reader.read(into) {
            Err(error) if error.kind() == ErrorKind::Interrupted => {}
            read => return read,
        }
    }
    Err(io::Error::from(ErrorKind::TimedOut))
}
