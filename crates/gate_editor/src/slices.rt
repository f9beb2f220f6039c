//! Parts of lists of bytes; a place past the end counts as the end.
use anyhow::Result;
use std::alloc::Global;

/// What stands before a place.
pub fn head(bytes: &[u8], at: usize) -> &[u8] {
    &bytes[..at.min(bytes.len())]
}

/// What stands from a place on.
pub fn tail(bytes: &[u8], at: usize) -> &[u8] {
    &bytes[at.min(bytes.len())..]
}

/// What stands from one place up to another.
pub fn between(bytes: &[u8], from: usize, to: usize) -> &[u8] {
    head(tail(bytes, from), to.saturating_sub(from))
}

/// The bytes, where those from one place up to another give way to new ones.
pub fn spliced(alloc: Global, bytes: &[u8], from: usize, to: usize, new: &[u8]) -> Result<Vec<u8>> {
    let mut whole = Vec::new(alloc);
    whole.extend_from_slice(head(bytes, from))?;
    whole.extend_from_slice(new)?;
    whole.extend_from_slice(tail(bytes, to))?;
    Ok(whole)
}

/// Where the line of a place begins.
pub fn line_start(bytes: &[u8], at: usize) -> usize {
    let mut start = 0;
    for (place, byte) in head(bytes, at).iter().enumerate() {
        if *byte == b'\n' {
            start = place.saturating_add(1);
        }
    }
    start
}

/// Where the line of a place ends, before its newline.
pub fn line_end(bytes: &[u8], at: usize) -> usize {
    for (away, byte) in tail(bytes, at).iter().enumerate() {
        if *byte == b'\n' {
            return at.saturating_add(away);
        }
    }
    bytes.len()
}

/// The line of a place, without its newline.
pub fn line_of(bytes: &[u8], at: usize) -> &[u8] {
    between(bytes, line_start(bytes, at), line_end(bytes, at))
}

/// The first place at or after `from` where the bytes stand.
pub fn place_of(bytes: &[u8], what: &[u8], from: usize) -> Option<usize> {
    if what.is_empty() {
        return None;
    }
    for at in from..bytes.len().max(from) {
        if tail(bytes, at).starts_with(what) {
            return Some(at);
        }
    }
    None
}
