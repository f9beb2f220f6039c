//! Frames of panels and of a page.
ghost use Rattle.std.specs.Prelude.{◌<◌, ◌^◌};
ghost use Rattle.screen_frame.specs.JobsLine.{live_jobs};

use crate::fields::text_of;
use crate::screens::tell_screen;
use key_screen::{Attr, Grid};
use mc_text::NoMemory;
use rows_page::{Page, two_fields};
use screen_frame::{
    JobCounts, KeyBar, ListingLine, ListingLines, PageRow, PageRows, Pane, Panes, Run, Shape,
    paint_page, paint_panels,
};

/// Two panels: a size, the panels, and how many jobs are in each state.
pub fn tell_both(page: &mut Page, fields: &str) {
    let (size, fields) = two_fields(fields, '|');
    let (left, fields) = two_fields(fields, '|');
    let (right, counts) = two_fields(fields, '|');
    let left = pane_of(page, left);
    let right = pane_of(page, right);
    tell_panes(page, size, &Panes::Both(left, right), counts);
}

/// One panel over all columns.
pub fn tell_whole(page: &mut Page, fields: &str) {
    let (size, fields) = two_fields(fields, '|');
    let (pane, counts) = two_fields(fields, '|');
    let pane = pane_of(page, pane);
    tell_panes(page, size, &Panes::Whole(pane), counts);
}

/// A page: a size, which keys, its title, and its runs, each behind its row.
pub fn tell_page(page: &mut Page, fields: &str) {
    let (size, fields) = two_fields(fields, '|');
    let (keys, fields) = two_fields(fields, '|');
    let (title, rows) = two_fields(fields, '|');
    let (lines, columns) = size_of(size);
    let shown = screen_frame::Page {
        title: text_of(page, title),
        rows: rows_of(page, rows),
        bar: bar_of(keys),
    };
    tell_frame(page, paint_page(page.alloc(), lines, columns, &shown));
}

fn tell_panes(page: &mut Page, size: &str, panes: &Panes, counts: &str) {
    let (lines, columns) = size_of(size);
    let jobs = counts_of(counts);
    tell_frame(
        page,
        paint_panels(page.alloc(), lines, columns, panes, &jobs),
    );
}

fn tell_frame(page: &mut Page, frame: Result<Grid, NoMemory>) {
    match frame {
        Ok(frame) => tell_screen(page, &frame),
        Err(_error) => page.fail(),
    }
}

/// Lines and columns.
fn size_of(size: &str) -> (u16, u16) {
    let (lines, columns) = two_fields(size, ' ');
    (lines.parse().unwrap_or(0), columns.parse().unwrap_or(0))
}

/// What a pane shows: whether it is current and its shape, the title, the heading, the current name, how
/// many names can't be shown, and its items.
fn pane_of(page: &mut Page, text: &str) -> Pane {
    let (kind, text) = two_fields(text, ';');
    let (title, text) = two_fields(text, ';');
    let (heading, text) = two_fields(text, ';');
    let (name, text) = two_fields(text, ';');
    let (unnamed, items) = two_fields(text, ';');
    Pane {
        title: text_of(page, title),
        heading: text_of(page, heading),
        shape: shape_of(kind),
        items: items_of(page, items),
        name: text_of(page, name),
        unnamed: unnamed.parse().unwrap_or(0),
        is_current: kind.starts_with("current"),
    }
}

fn shape_of(kind: &str) -> Shape {
    if kind.ends_with("brief") {
        Shape::Brief
    } else {
        Shape::Full
    }
}

fn items_of(page: &mut Page, texts: &str) -> ListingLines {
    let mut items = ListingLines::new(page.alloc());
    for text in texts.split(';') {
        let (text, look) = looked(text);
        let text = text_of(page, text);
        page.need(items.push(ListingLine { text, look }).is_ok());
    }
    items
}

/// A text without its mark, and how it looks.
fn looked(text: &str) -> (&str, Attr) {
    if let Some(rest) = text.strip_prefix('^') {
        return (rest, Attr::Reverse);
    }
    match text.strip_prefix('!') {
        Some(rest) => (rest, Attr::Bold),
        None => (text, Attr::Plain),
    }
}

/// How many jobs are ready, asking, in trouble, and stopped.
fn counts_of(words: &str) -> JobCounts
    ensures { live_jobs result < 2 ^ 64 }
{
    let (ready, words) = two_fields(words, ' ');
    let (asking, words) = two_fields(words, ' ');
    let (troubled, stopped) = two_fields(words, ' ');
    JobCounts {
        ready: count_of(ready),
        asking: count_of(asking),
        troubled: count_of(troubled),
        stopped: count_of(stopped),
    }
}

fn count_of(word: &str) -> usize
    ensures { result < 2 ^ 8 }
{
    let count: u8 = word.parse().unwrap_or(0);
    usize::from(count)
}

/// The keys of a page: the viewer's, or else the editor's.
fn bar_of(word: &str) -> KeyBar {
    match word {
        "viewer" => KeyBar::Viewer,
        _ => KeyBar::Editor,
    }
}

/// Rows with `;` between them.
fn rows_of(page: &mut Page, text: &str) -> PageRows {
    let mut rows = Vec::new(page.alloc());
    for row in text.split(';') {
        let row = row_of(page, row);
        page.need(rows.push(row).is_ok());
    }
    PageRows(rows)
}

/// Runs with `,` between them, each its column, a colon and its text.
fn row_of(page: &mut Page, text: &str) -> PageRow {
    let mut runs = Vec::new(page.alloc());
    for run in text.split(',') {
        let (column, text) = two_fields(run, ':');
        let (text, look) = looked(text);
        let column = column.parse().unwrap_or(0);
        let text = text_of(page, text);
        page.need(runs.push(Run { column, text, look }).is_ok());
    }
    PageRow(runs)
}
