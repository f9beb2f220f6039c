//! Where a point goes.
use crate::places::{column_at, place_before, place_behind, place_in_column, places_of};
use crate::slices::{line_end, line_of, line_start};
use anyhow::Result;
use mc_edit::EditCmd;
use std::alloc::Global;

/// Between which places a command takes bytes out, if it is one of those.
pub fn cut_by(
    alloc: Global,
    bytes: &[u8],
    point: usize,
    command: &EditCmd,
) -> Result<Option<(usize, usize)>> {
    Ok(match command {
        EditCmd::Backspace => Some((left(alloc, bytes, point)?, point)),
        EditCmd::DeleteUnder => Some((point, right(alloc, bytes, point)?)),
        EditCmd::DeleteLine => Some((line_start(bytes, point), line_past(bytes, point))),
        EditCmd::DeleteToEnd => Some((point, line_end(bytes, point))),
        _ => None,
    })
}

/// Where a command that only moves leads.
pub fn place_after(alloc: Global, bytes: &[u8], point: usize, command: &EditCmd) -> Result<usize> {
    match command {
        EditCmd::Left => left(alloc, bytes, point),
        EditCmd::Right => right(alloc, bytes, point),
        EditCmd::Up => up(alloc, bytes, point),
        EditCmd::Down => down(alloc, bytes, point),
        EditCmd::PageUp(count) => page_up(alloc, bytes, point, *count),
        EditCmd::PageDown(count) => page_down(alloc, bytes, point, *count),
        other => Ok(plain_place(bytes, point, other)),
    }
}

fn plain_place(bytes: &[u8], point: usize, command: &EditCmd) -> usize {
    match command {
        EditCmd::LineStart => line_start(bytes, point),
        EditCmd::LineEnd => line_end(bytes, point),
        EditCmd::TextStart => 0,
        EditCmd::TextEnd => bytes.len(),
        EditCmd::GoLine(line) => start_of_line(bytes, *line),
        _ => point,
    }
}

fn line_past(bytes: &[u8], at: usize) -> usize {
    line_end(bytes, at).saturating_add(1).min(bytes.len())
}

fn left(alloc: Global, bytes: &[u8], point: usize) -> Result<usize> {
    let start = line_start(bytes, point);
    if point == start {
        return Ok(point.saturating_sub(1));
    }
    let places = places_of(alloc, line_of(bytes, point))?;
    let within = point.saturating_sub(start);
    Ok(start.saturating_add(place_before(places.as_slice(), within)))
}

fn right(alloc: Global, bytes: &[u8], point: usize) -> Result<usize> {
    let start = line_start(bytes, point);
    if point == line_end(bytes, point) {
        return Ok(point.saturating_add(1).min(bytes.len()));
    }
    let places = places_of(alloc, line_of(bytes, point))?;
    let within = point.saturating_sub(start);
    Ok(start.saturating_add(place_behind(places.as_slice(), within)))
}

fn up(alloc: Global, bytes: &[u8], point: usize) -> Result<usize> {
    let start = line_start(bytes, point);
    if start == 0 {
        return Ok(point);
    }
    in_same_column(alloc, bytes, point, start.saturating_sub(1))
}

fn down(alloc: Global, bytes: &[u8], point: usize) -> Result<usize> {
    let end = line_end(bytes, point);
    if end == bytes.len() {
        return Ok(point);
    }
    in_same_column(alloc, bytes, point, end.saturating_add(1))
}

/// The place of the point's column in the line that holds another place.
fn in_same_column(alloc: Global, bytes: &[u8], point: usize, other: usize) -> Result<usize> {
    let start = line_start(bytes, point);
    let here = places_of(alloc, line_of(bytes, point))?;
    let column = column_at(here.as_slice(), point.saturating_sub(start));
    let there = places_of(alloc, line_of(bytes, other))?;
    Ok(line_start(bytes, other).saturating_add(place_in_column(there.as_slice(), column)))
}

fn page_up(alloc: Global, bytes: &[u8], point: usize, count: u16) -> Result<usize> {
    let mut place = point;
    for _ in 0..count {
        place = up(alloc, bytes, place)?;
    }
    Ok(place)
}

fn page_down(alloc: Global, bytes: &[u8], point: usize, count: u16) -> Result<usize> {
    let mut place = point;
    for _ in 0..count {
        place = down(alloc, bytes, place)?;
    }
    Ok(place)
}

/// Where a line begins, or the last one.
fn start_of_line(bytes: &[u8], line: u64) -> usize {
    let mut number = 1u64;
    let mut start = 0;
    for (place, byte) in bytes.iter().enumerate() {
        if *byte == b'\n' && number < line {
            number = number.saturating_add(1);
            start = place.saturating_add(1);
        }
    }
    start
}
