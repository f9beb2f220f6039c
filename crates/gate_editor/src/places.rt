//! Where the units of a line begin, and in which columns.
use crate::slices::between;
use anyhow::Result;
use std::alloc::Global;
use std::str;
use unicode_segmentation::UnicodeSegmentation;
use unicode_width::UnicodeWidthStr;

/// A place in a line, and its column.
#[derive(Clone, Copy, Drop)]
pub struct Place {
    pub at: usize,
    pub column: usize,
}

/// The start of each unit of a line, and at last its end.
pub fn places_of(alloc: Global, line: &[u8]) -> Result<Vec<Place>> {
    let mut places = Vec::new(alloc);
    let mut place = Place { at: 0, column: 0 };
    for length in lengths_of(alloc, line)? {
        places.push(place)?;
        place = behind(line, place, length);
    }
    places.push(place)?;
    Ok(places)
}

fn behind(line: &[u8], place: Place, length: usize) -> Place {
    let end = place.at.saturating_add(length);
    let columns = columns_of(between(line, place.at, end), place.column);
    Place {
        at: end,
        column: place.column.saturating_add(columns),
    }
}

/// The bytes of each unit: of a cluster where the line is valid UTF-8, and else one.
fn lengths_of(alloc: Global, line: &[u8]) -> Result<Vec<usize>> {
    match str::from_utf8(line) {
        Ok(text) => cluster_lengths(alloc, text),
        Err(_) => ones(alloc, line.len()),
    }
}

fn cluster_lengths(alloc: Global, text: &str) -> Result<Vec<usize>> {
    let mut lengths = Vec::new(alloc);
    for cluster in text.graphemes(true) {
        lengths.push(cluster.len())?;
    }
    Ok(lengths)
}

fn ones(alloc: Global, count: usize) -> Result<Vec<usize>> {
    let mut lengths = Vec::new(alloc);
    for _ in 0..count {
        lengths.push(1)?;
    }
    Ok(lengths)
}

/// A tab goes to the next multiple of 8; what has no width of 1 or 2, or is a control, is shown as one dot.
fn columns_of(unit: &[u8], column: usize) -> usize {
    if unit == b"\t".as_slice() {
        return 8 - column % 8;
    }
    match str::from_utf8(unit) {
        Ok(text) => shown_columns(text),
        Err(_) => 1,
    }
}

fn shown_columns(text: &str) -> usize {
    let width = text.width();
    if text.chars().any(|c| c.is_control()) || width == 0 || width > 2 {
        1
    } else {
        width
    }
}

/// The column of the last of the places at or before one.
pub fn column_at(places: &[Place], at: usize) -> usize {
    let mut column = 0;
    for place in places {
        if place.at <= at {
            column = place.column;
        }
    }
    column
}

/// The last of the places whose column isn't above one.
pub fn place_in_column(places: &[Place], column: usize) -> usize {
    let mut at = 0;
    for place in places {
        if place.column <= column {
            at = place.at;
        }
    }
    at
}

/// The last of the places before one.
pub fn place_before(places: &[Place], at: usize) -> usize {
    let mut last = 0;
    for place in places {
        if place.at < at {
            last = place.at;
        }
    }
    last
}

/// The first of the places behind one.
pub fn place_behind(places: &[Place], at: usize) -> usize {
    for place in places {
        if place.at > at {
            return place.at;
        }
    }
    at
}
