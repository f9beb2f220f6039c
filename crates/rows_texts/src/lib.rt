//! Reads rows, and writes each with what the libraries make of it: texts, names, paths, keys and screens.
#![tactic(auto)]

mod fields;
mod frames;
mod keys;
mod paths;
mod screens;
mod texts;

use rows_page::{Page, two_fields};

/// Each row with what comes of it.
pub fn tell_rows(page: &mut Page, rows: &str) {
    for row in rows.lines() {
        page.put(row);
        page.put(" => ");
        tell_row(page, row);
        page.put("\n");
    }
}

/// What comes of a row: the word before its first bar says which call is made.
fn tell_row(page: &mut Page, row: &str) {
    let (call, fields) = two_fields(row, '|');
    match call {
        "name" => paths::tell_name(page, fields),
        "long name" => paths::tell_long_name(page, fields),
        "path" => paths::tell_path(page, fields),
        "long path" => paths::tell_long_path(page, fields),
        "above" => paths::tell_above(page, fields),
        "parent" => paths::tell_parent(page, fields),
        "join" => paths::tell_join(page, fields),
        "fit" => texts::tell_fitted(page, fields),
        "time" => texts::tell_time(page, fields),
        "mode" => texts::tell_mode(page, fields),
        "size" => texts::tell_size(page, fields),
        "drawn" => texts::tell_drawn(page, fields),
        "keys" => keys::tell_keys(page, fields),
        _ => tell_screens(page, call, fields),
    }
}

fn tell_screens(page: &mut Page, call: &str, fields: &str) {
    match call {
        "same" => screens::tell_same(page, fields),
        "sizes" => screens::tell_sizes(page),
        "shown" => screens::tell_shown(page, fields),
        "unread" => screens::tell_unread(page, fields),
        "frames" => frames::tell_frames(page, fields),
        "first" => frames::tell_first(page, fields),
        "put" => frames::tell_put(page, fields),
        _ => page.fail(),
    }
}
