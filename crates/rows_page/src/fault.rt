//! Why a program of rows ends with an error.
use std::io;

#[derive(Clone, Copy, Debug)]
pub enum Fault {
    /// A row could not be read or carried out.
    Row,
    /// Standard input or output refused.
    Stream,
}

impl From<io::Error> for Fault {
    fn from(_error: io::Error) -> Fault {
        Fault::Stream
    }
}
