//! What stands in the panels.
use mc_text::{Path, PathError};
use panel_listing::Item;
use panel_pair::{Panels, Side, Unopened, Unread};
use panel_state::Panel;
use resolving::ResolveError;
use rows_page::Page;
use std::convert::AsStr;

/// The left panel and the right one, a star at the current one.
pub fn tell_panels(page: &mut Page, panels: &Panels) {
    let is_left = panels.side() == Side::Left;
    page.put(if is_left { "*" } else { "" });
    tell_panel(page, panels.left());
    page.put(if is_left { " | " } else { " | *" });
    tell_panel(page, panels.right());
}

/// Its folder, the row of the cursor and how many rows there are, the text of that row, and the tagged names.
fn tell_panel(page: &mut Page, panel: &Panel) {
    tell_path(page, panel.folder());
    page.tell(format_args!(" {}/{} ", panel.cursor() + 1, panel.row_count()));
    match panel.current_text(page.alloc()) {
        Ok(text) => page.put(text.as_str()),
        Err(_error) => page.fail(),
    }
    for item in panel.listing().items() {
        tell_if_tagged(page, panel, item);
    }
}

fn tell_if_tagged(page: &mut Page, panel: &Panel, item: &Item) {
    if panel.tags().has(item.name.text()) {
        page.put(" +");
        page.put(item.name.text());
    }
}

/// What a job takes.
pub fn tell_selection(page: &mut Page, panels: &Panels) {
    match panels.selection(page.alloc()) {
        Ok(paths) => {
            for path in paths.as_slice() {
                tell_path(page, path);
                page.put(" ");
            }
        }
        Err(PathError::TooLong(_)) => page.put("path too long"),
        Err(_error) => page.fail(),
    }
}

/// Why a folder can't be opened, and on which side.
pub fn tell_unopened(page: &mut Page, unopened: &Unopened) {
    page.put(match unopened.side {
        Side::Left => "left ",
        Side::Right => "right ",
    });
    tell_refusal(page, &unopened.error);
}

/// Why panels could not be read again.
pub fn tell_unread(page: &mut Page, unread: &Unread) {
    tell_if_unread(page, &unread.left);
    tell_if_unread(page, &unread.right);
}

fn tell_if_unread(page: &mut Page, refusal: &Option<ResolveError>) {
    if let Some(error) = refusal {
        tell_refusal(page, error);
        page.put("; ");
    }
}

/// A refusal with its path, where it has one.
pub fn tell_refusal(page: &mut Page, error: &ResolveError) {
    match error {
        ResolveError::Tree(path, cause) => {
            tell_path(page, path);
            page.put(": ");
            page.tell(*cause);
        }
        ResolveError::TooManyLinks => page.put("too many links"),
        ResolveError::TooLong => page.put("path too long"),
        ResolveError::BadName => page.put("bad name"),
        ResolveError::Fault | ResolveError::Memory => page.fail(),
    }
}

fn tell_path(page: &mut Page, path: &Path) {
    match path.text(page.alloc()) {
        Ok(text) => page.put(text.as_str()),
        Err(_error) => page.fail(),
    }
}
