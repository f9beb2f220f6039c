//! The units of a line, by which a point moves.
ghost use Rattle.std.specs.Prelude.{◌≡◌, ◌≤◌, length};
ghost use Rattle.unicode_segmentation.specs.Segments.{GivesFirst};
ghost use Rattle.std.specs.Iterator.{item_count};
ghost use Rattle.mc_edit.specs.Units.{units, units_left};

use std::str;
use unicode_segmentation::{Graphemes, UnicodeSegmentation};

/// Units that are still to come: first clusters, then single bytes. One of the two is empty from the start.
#[derive(Drop)]
pub struct Units<'a> {
    clusters: Graphemes<'a>,
    bytes: &'a [u8],
}

impl<'a> Iterator for Units<'a> {
    ghost use Rattle.mc_edit.specs.Units.{units_left};

    type Item = &'a [u8];

    ghost next_gives = { GivesFirst (λ unit. unit.now) units_left };

    ghost remaining = { item_count units_left };

    fn next(&mut self) -> Option<&'a [u8]> {
        if let Some(cluster) = self.clusters.next() {
            return Some(cluster.as_bytes());
        }
        if self.bytes.is_empty() {
            return None;
        }
        let (first, rest) = self.bytes.split_at(1);
        self.bytes = rest;
        Some(first)
    }
}

/// The units of a line: clusters where it is valid UTF-8, and else bytes.
pub fn units_of(line: &[u8]) -> Units<'_>
    ensures { units_left result ≡ units line.now }
{
    match str::from_utf8(line) {
        Ok(text) => Units {
            clusters: text.graphemes(true),
            bytes: &[],
        },
        Err(_) => Units {
            clusters: "".graphemes(true),
            bytes: line,
        },
    }
}
