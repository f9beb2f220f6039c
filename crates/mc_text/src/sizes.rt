//! A size in few bytes.
ghost use Rattle.std.specs.Prelude.{◌≡◌, ◌≤◌, ◌+◌, ◌/◌, max, length, string_bytes, IfOk};
ghost use Rattle.mc_text.specs.Sizes.{size_text};

use crate::error::NoMemory;
use crate::text::Text;
use std::alloc::Global;

/// So many bytes are enough for each size.
const ENOUGH: usize = 4;

/// A unit of size and its letter.
struct Unit {
    bytes: u64,
    letter: char,
}

/// From the smallest on, each 1024 of the one before.
const UNITS: [Unit; 6] = [
    Unit {
        bytes: 1 << 10,
        letter: 'K',
    },
    Unit {
        bytes: 1 << 20,
        letter: 'M',
    },
    Unit {
        bytes: 1 << 30,
        letter: 'G',
    },
    Unit {
        bytes: 1 << 40,
        letter: 'T',
    },
    Unit {
        bytes: 1 << 50,
        letter: 'P',
    },
    Unit {
        bytes: 1 << 60,
        letter: 'E',
    },
];

/// The size in bytes, or else in the smallest of the units K, M, G, T, P, E, rounded down, such that it
/// fits the columns. Where these are fewer than four it has up to four bytes.
pub fn size_text(alloc: Global, size: u64, columns: usize) -> Result<Text, NoMemory>
    ensures text { IfOk result (λ text. text ≡ size_text size columns) }
    ensures fits { IfOk result (λ text. length text ≤ max columns ENOUGH) }
{
    let room = columns.max(ENOUGH);
    let bytes = format!(in alloc; "{size}")?;
    if bytes.len() <= room {
        return Ok(Text(bytes));
    }
    for unit in &UNITS {
        let text = format!(in alloc; "{}{}", size / unit.bytes, unit.letter)?;
        if text.len() <= room {
            return Ok(Text(text));
        }
    }
    unreachable!()
}
