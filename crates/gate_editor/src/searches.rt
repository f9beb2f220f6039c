//! Bytes that are replaced wherever they stand.
use crate::slices::{between, head, place_of, tail};
use anyhow::Result;
use std::alloc::Global;

/// A text in which each place from one on gave way, and where the last of the new bytes end.
#[derive(Drop)]
pub struct Replaced {
    pub bytes: Vec<u8>,
    pub end: usize,
}

/// Each place from `from` on gives way, or there is none.
pub fn all_replaced(
    alloc: Global,
    bytes: &[u8],
    from: usize,
    what: &[u8],
    new: &[u8],
) -> Result<Option<Replaced>> {
    if place_of(bytes, what, from).is_none() {
        return Ok(None);
    }
    let mut whole = Vec::new(alloc);
    whole.extend_from_slice(head(bytes, from))?;
    let passed = put_all(&mut whole, bytes, from, what, new)?;
    let end = whole.len();
    whole.extend_from_slice(tail(bytes, passed))?;
    Ok(Some(Replaced { bytes: whole, end }))
}

/// Puts what stands up to the end of the last place behind the text, and tells where that place ended.
fn put_all(
    whole: &mut Vec<u8>,
    bytes: &[u8],
    from: usize,
    what: &[u8],
    new: &[u8],
) -> Result<usize> {
    let mut passed = from;
    for _ in 0..bytes.len() {
        let Some(at) = place_of(bytes, what, passed) else {
            break;
        };
        whole.extend_from_slice(between(bytes, passed, at))?;
        whole.extend_from_slice(new)?;
        passed = at.saturating_add(what.len());
    }
    Ok(passed)
}
