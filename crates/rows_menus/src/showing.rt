//! Which entries of a menu are shown.
use crate::facts::fact_of;
use crate::menus::are_shell_patterns;
use rows_page::{Page, bytes_of, two_fields};
use tree_trait::{Tree, TreeError};
use user_menu::{Fact, Menu, Shown, parse_menu, shown};

/// Which entries of a file are shown in a panel beside another one.
pub fn tell_shown<T: Tree>(page: &mut Page, tree: &mut T, field: &str) {
    let (kind, rest) = two_fields(field, '|');
    let (here, rest) = two_fields(rest, '|');
    let (other, file) = two_fields(rest, '|');
    let bytes = bytes_of(page, file);
    match parse_menu(page.alloc(), &bytes, are_shell_patterns(kind)) {
        Ok(menu) => tell_shown_here(page, tree, &menu, here, other),
        Err(error) => page.tell(error),
    }
}

fn tell_shown_here<T: Tree>(page: &mut Page, tree: &mut T, menu: &Menu, here: &str, other: &str) {
    match fact_of(page.alloc(), here) {
        Some(here) => tell_shown_beside(page, tree, menu, &here, other),
        None => page.fail(),
    }
}

fn tell_shown_beside<T: Tree>(
    page: &mut Page,
    tree: &mut T,
    menu: &Menu,
    here: &Fact,
    other: &str,
) {
    match fact_of(page.alloc(), other) {
        Some(other) => tell(page, shown(page.alloc(), tree, menu, here, &other)),
        None => page.fail(),
    }
}

/// The numbers of the shown entries, and the default.
fn tell(page: &mut Page, answer: Result<Shown, TreeError>) {
    match answer {
        Ok(shown) => tell_entries(page, &shown),
        Err(error) => page.tell(error),
    }
}

fn tell_entries(page: &mut Page, shown: &Shown) {
    page.put("shown");
    for entry in shown.entries.0.as_slice() {
        page.tell(format_args!(" {entry}"));
    }
    match shown.default {
        Some(entry) => page.tell(format_args!(", default {entry}")),
        None => page.put(", no default"),
    }
}
