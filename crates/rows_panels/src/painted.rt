//! The heading and the rows of a listing.
use crate::listings::listed;
use crate::wishes::all_by_name;
use mc_text::Name;
use panel_listing::{Format, Listing, Window, heading, rows};
use rows_page::{Page, number, two_fields};
use std::convert::AsStr;
use tagging::Tags;
use tree_trait::Tree;

/// What a panel shows of a folder: the window (its first row, its rows, its columns, the second), a name
/// that is tagged, and the format stand in the fields.
pub fn tell_painted<T: Tree>(page: &mut Page, tree: &mut T, fields: &str) {
    let (folder, fields) = two_fields(fields, '|');
    let (window, fields) = two_fields(fields, '|');
    let (tagged, format) = two_fields(fields, '|');
    match listed(page.alloc(), tree, folder, &all_by_name()) {
        Ok(listing) => tell_tagged(page, &listing, window_of(window), tagged, format),
        Err(error) => page.tell(error),
    }
}

fn window_of(field: &str) -> Window {
    let (first, rest) = two_fields(field, ' ');
    let (count, rest) = two_fields(rest, ' ');
    let (columns, now) = two_fields(rest, ' ');
    Window {
        columns: number(columns),
        first: number(first),
        count: number(count),
        now: number(now) as u64,
    }
}

fn tell_tagged(page: &mut Page, listing: &Listing, window: Window, tagged: &str, format: &str) {
    let mut tags = Tags::new(page.alloc());
    match Name::new(page.alloc(), tagged) {
        Ok(name) => page.need(tags.toggle(page.alloc(), &name).is_ok()),
        Err(_error) => page.need(tagged.is_empty()),
    }
    match Format::parse(page.alloc(), format) {
        Ok(format) => tell_rows(page, listing, &tags, &format, window),
        Err(error) => page.tell(error),
    }
}

fn tell_rows(page: &mut Page, listing: &Listing, tags: &Tags, format: &Format, window: Window) {
    match heading(page.alloc(), format, window.columns) {
        Ok(line) => tell_line(page, line.as_str()),
        Err(_error) => page.fail(),
    }
    match rows(page.alloc(), listing, tags, format, window) {
        Ok(lines) => {
            for line in lines.as_slice() {
                tell_line(page, line.as_str());
            }
        }
        Err(_error) => page.fail(),
    }
}

fn tell_line(page: &mut Page, line: &str) {
    page.tell(format_args!("[{line}]"));
}
