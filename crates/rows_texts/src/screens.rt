//! Rows of screens. What is written stands as `ROW COLUMN ATTRIBUTE TEXT`, one behind the
//! other with `;` between them.
use crate::fields::text_of;
use key_screen::{Attr, Grid, GridError, read_grid};
use rows_page::{Page, bytes_of, number, two_fields};

/// A blank screen on which these are written.
pub fn grid_of(page: &mut Page, lines: u16, columns: u16, all: &str) -> Option<Grid> {
    match Grid::blank(page.alloc(), lines, columns) {
        Ok(mut grid) => {
            write_all(page, &mut grid, all);
            Some(grid)
        }
        Err(_error) => {
            page.fail();
            None
        }
    }
}

fn write_all(page: &mut Page, grid: &mut Grid, all: &str) {
    for written in all.split(';') {
        if !written.is_empty() {
            write(page, grid, written);
        }
    }
}

/// Writes one text, where that lies on the screen.
fn write(page: &mut Page, grid: &mut Grid, written: &str) {
    let mut words = written.split(' ');
    let row = number(words.next().unwrap_or(""));
    let column = number(words.next().unwrap_or(""));
    let attr = attr_of(words.next().unwrap_or(""));
    let text = text_of(page, words.next().unwrap_or(""));
    let done = grid.write_at(page.alloc(), row, column, text.as_str(), attr);
    page.need(done.is_ok());
}

fn attr_of(word: &str) -> Attr {
    match word {
        "bold" => Attr::Bold,
        "reverse" => Attr::Reverse,
        _ => Attr::Plain,
    }
}

/// Whether a screen shows what is written.
fn compare(page: &mut Page, one: &Grid, written: &str) {
    if let Some(other) = grid_of(page, 3, 10, written) {
        tell_compared(page, one, &other);
    }
}

fn tell_compared(page: &mut Page, one: &Grid, other: &Grid) {
    page.put(if one.same(other) { "same" } else { "other" });
}

/// Whether two screens of 3 lines and 10 columns show the same.
pub fn tell_same(page: &mut Page, fields: &str) {
    let (one, other) = two_fields(fields, '|');
    if let Some(one) = grid_of(page, 3, 10, one) {
        compare(page, &one, other);
    }
}

/// Whether a blank screen of 10 lines and 3 columns is one of 3 lines and 10 columns.
pub fn tell_sizes(page: &mut Page) {
    if let Some(high) = grid_of(page, 10, 3, "") {
        compare(page, &high, "");
    }
}

/// Whether a terminal of 3 lines and 10 columns that reads the bytes shows what is written.
pub fn tell_shown(page: &mut Page, fields: &str) {
    let (bytes, written) = two_fields(fields, '|');
    let bytes = bytes_of(page, bytes);
    match read_grid(page.alloc(), 3, 10, &bytes) {
        Ok(grid) => compare(page, &grid, written),
        Err(_error) => page.fail(),
    }
}

/// The position of the first byte that a terminal of 3 lines and 10 columns doesn't read.
pub fn tell_unread(page: &mut Page, field: &str) {
    let bytes = bytes_of(page, field);
    match read_grid(page.alloc(), 3, 10, &bytes) {
        Ok(_grid) => page.put("all read"),
        Err(GridError::BadByte(position)) => page.tell(position),
        Err(error) => page.tell(format_args!("{error:?}")),
    }
}
