//! The first row of some bytes.
ghost use Rattle.std.specs.Prelude.{◌≡◌, ◌<◌, ◌≤◌, ◌+◌, ◌*◌, ◌^◌, length, drop};
ghost use Rattle.mc_viewer.specs.Rows.{line_length, wrapped_length};

use crate::units::{front, rest_from, unit_columns, unit_length};
use memchr::memchr;

/// The bytes of the first line, with the newline that ends it.
pub fn line_length(bytes: &[u8]) -> usize
    ensures value { result ≡ line_length bytes.now }
    ensures within { result ≤ length bytes.now }
{
    match memchr(b'\n', bytes) {
        Some(newline) => newline + 1,
        None => bytes.len(),
    }
}

/// The bytes of the first row of at most so many columns.
pub fn wrapped_length(bytes: &[u8], columns: usize) -> usize
    requires { columns < 2 ^ 32 }
    ensures value { result ≡ wrapped_length columns 0 0 bytes.now }
    ensures within { result ≤ length bytes.now }
{
    let mut at = 0;
    let mut column = 0;
    while at < bytes.len() {
        if bytes[at] == b'\n' {
            return at + 1;
        }
        let rest = rest_from(bytes, at);
        let length = unit_length(rest);
        let next = column + unit_columns(column, front(rest, length));
        if column > 0 && next > columns {
            return at;
        }
        at += length;
        column = next;
    }
    at
}
