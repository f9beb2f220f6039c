//! Which bracket belongs to which.
use crate::slices::{head, tail};

/// The place of the partner of what stands at a place.
pub fn partner_of(bytes: &[u8], at: usize) -> Option<usize> {
    let byte = *tail(bytes, at).first()?;
    match byte {
        b'(' => behind(bytes, at, b'(', b')'),
        b'[' => behind(bytes, at, b'[', b']'),
        b'{' => behind(bytes, at, b'{', b'}'),
        b')' => before(bytes, at, b')', b'('),
        b']' => before(bytes, at, b']', b'['),
        b'}' => before(bytes, at, b'}', b'{'),
        _ => None,
    }
}

/// The first place behind at which as many of both were met.
fn behind(bytes: &[u8], at: usize, ours: u8, partner: u8) -> Option<usize> {
    let mut open = 0usize;
    for (away, byte) in tail(bytes, at).iter().enumerate() {
        open = counted(open, *byte, ours, partner);
        if open == 0 {
            return Some(at.saturating_add(away));
        }
    }
    None
}

/// The last place before at which as many of both were met.
fn before(bytes: &[u8], at: usize, ours: u8, partner: u8) -> Option<usize> {
    let mut open = 1usize;
    for (away, byte) in head(bytes, at).iter().rev().enumerate() {
        open = counted(open, *byte, ours, partner);
        if open == 0 {
            return Some(at.saturating_sub(away).saturating_sub(1));
        }
    }
    None
}

fn counted(open: usize, byte: u8, ours: u8, partner: u8) -> usize {
    if byte == ours {
        open.saturating_add(1)
    } else if byte == partner {
        open.saturating_sub(1)
    } else {
        open
    }
}
