//! Screens as lines of text.
use key_screen::{Attr, Cell, Glyph, Grid};
use rows_page::{Page, repeated};
use std::convert::AsStr;

/// Each row of a screen that isn't blank, with its number and a bar behind it.
pub fn tell_screen(page: &mut Page, grid: &Grid) {
    let columns = usize::from(grid.columns()).max(1);
    page.put("shown");
    let mut number = 0u64;
    for cells in grid.cells().chunks(columns) {
        number = number.saturating_add(1);
        tell_row(page, number, cells);
    }
}

/// A row, and below it marks, where it has cells that aren't plain. Nothing where it is blank.
fn tell_row(page: &mut Page, number: u64, cells: &[Cell]) {
    let mut text = Page::new(page.alloc());
    let mut marks = Page::new(page.alloc());
    for cell in cells {
        text.put(shown_in(cell));
        marks.put(mark(cell.attr));
    }
    page.need(text.is_whole() && marks.is_whole());
    let has_marks = !marks.text().trim_end().is_empty();
    if has_marks || !text.text().trim_end().is_empty() {
        page.tell(format_args!("\n{number:2} {}|", text.text()));
    }
    if has_marks {
        page.tell(format_args!("\n   {}|", marks.text()));
    }
}

fn shown_in(cell: &Cell) -> &str {
    match &cell.glyph {
        Glyph::Blank => " ",
        Glyph::Cluster(cluster) => cluster.as_str(),
        Glyph::RightHalf => "",
    }
}

fn mark(attr: Attr) -> &'static str {
    match attr {
        Attr::Plain => " ",
        Attr::Bold => "!",
        Attr::Reverse => "^",
    }
}

/// Fills a screen with dots.
pub fn dot(page: &mut Page, grid: &mut Grid) {
    let columns = usize::from(grid.columns());
    let dots = repeated(page.alloc(), ".", columns);
    for row in 0..usize::from(grid.lines()) {
        let done = grid.write_at(page.alloc(), row + 1, 1, dots.text(), Attr::Plain);
        page.need(done.is_ok());
    }
}
