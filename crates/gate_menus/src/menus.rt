//! Menus, by keys, between two panels.
use crate::panels::{Panels, panels_of};
use key_screen::{Grid, Key};
use mc_text::Path;
use mem_tree::MemTree;
use percent_macros::MacroError;
use rows_boxes::{keys_of, tell_screen};
use rows_page::{Page, bytes_of, two_fields};
use std::convert::AsStr;
use tree_trait::ReadTree;
use ui_menu::{Command, MenuAct, MenuMode};
use user_menu::{Menu, parse_menu};

/// How many lines and columns the screen has.
const LINES: u16 = 9;

const COLUMNS: u16 = 24;

/// Each row with what comes of it.
pub fn tell_rows(page: &mut Page, rows: &str) {
    match MemTree::new(page.alloc(), 0) {
        Ok(mut tree) => tell_rows_in(page, &mut tree, rows),
        Err(_error) => page.fail(),
    }
}

fn tell_rows_in<T: ReadTree>(page: &mut Page, tree: &mut T, rows: &str) {
    for row in rows.lines() {
        page.put(row);
        page.put(" =>");
        tell_row(page, tree, row);
        page.put("\n");
    }
}

/// A row has a call, the menu's file, the tagged names of the panel here, and keys.
fn tell_row<T: ReadTree>(page: &mut Page, tree: &mut T, row: &str) {
    let (call, fields) = two_fields(row, '|');
    let (file, fields) = two_fields(fields, '|');
    let (tags, words) = two_fields(fields, '|');
    let bytes = bytes_of(page, file);
    match (
        parse_menu(page.alloc(), bytes.as_slice(), true),
        panels_of(page.alloc(), tags),
    ) {
        (Ok(menu), Some(panels)) => tell_menu(page, tree, &menu, &panels, call, words),
        _ => page.fail(),
    }
}

fn tell_menu<T: ReadTree>(
    page: &mut Page,
    tree: &mut T,
    menu: &Menu,
    panels: &Panels,
    call: &str,
    words: &str,
) {
    let alloc = page.alloc();
    match MenuMode::open(alloc, tree, LINES, menu, &panels.here, &panels.other) {
        Ok(mut mode) => tell_call(page, &mut mode, panels, call, words),
        Err(_error) => page.fail(),
    }
}

fn tell_call(page: &mut Page, mode: &mut MenuMode, panels: &Panels, call: &str, words: &str) {
    match call {
        "keys" => work_keys(page, mode, panels, words),
        "box" => tell_box(page, mode, panels, words),
        _ => page.fail(),
    }
}

/// What stands on the screen once the keys were worked.
fn tell_box(page: &mut Page, mode: &mut MenuMode, panels: &Panels, words: &str) {
    let mut aside = Page::new(page.alloc());
    work_keys(&mut aside, mode, panels, words);
    page.need(aside.is_whole());
    match Grid::blank(page.alloc(), LINES, COLUMNS) {
        Ok(mut grid) => tell_painted(page, mode, &mut grid),
        Err(_error) => page.fail(),
    }
}

fn tell_painted(page: &mut Page, mode: &MenuMode, grid: &mut Grid) {
    let done = mode.paint(page.alloc(), grid);
    page.need(done.is_ok());
    page.put(" ");
    tell_screen(page, grid);
}

fn work_keys(page: &mut Page, mode: &mut MenuMode, panels: &Panels, words: &str) {
    let keys = keys_of(page, words);
    for key in &keys {
        tell_key(page, mode, panels, *key);
    }
}

fn tell_key(page: &mut Page, mode: &mut MenuMode, panels: &Panels, key: Key) {
    match mode.key(page.alloc(), &panels.context, key) {
        Ok(act) => tell_act(page, &act),
        Err(_error) => page.fail(),
    }
}

fn tell_act(page: &mut Page, act: &MenuAct) {
    match act {
        MenuAct::Stays => page.put(" stays"),
        MenuAct::Runs(command) => tell_command(page, command),
        MenuAct::Refused(MacroError::UnknownMacro(at)) => page.tell(format_args!(" unknown {at}")),
        MenuAct::Refused(MacroError::OpenBrace(at)) => page.tell(format_args!(" open {at}")),
        MenuAct::Refused(MacroError::Memory) => page.fail(),
        MenuAct::Leaves => page.put(" left"),
    }
}

/// A command in brackets, a bar between its lines, with its folder, and which tags end.
fn tell_command(page: &mut Page, command: &Command) {
    page.put(" runs [");
    tell_lines(page, command.text.as_str());
    page.put("] in ");
    tell_folder(page, &command.folder);
    if command.untag_here {
        page.put(", untags here");
    }
    if command.untag_other {
        page.put(", untags there");
    }
}

fn tell_lines(page: &mut Page, text: &str) {
    let mut lines = text.lines();
    if let Some(first) = lines.next() {
        page.put(first);
    }
    for line in lines {
        page.put("|");
        page.put(line);
    }
}

fn tell_folder(page: &mut Page, folder: &Path) {
    match folder.text(page.alloc()) {
        Ok(text) => page.put(text.as_str()),
        Err(_error) => page.fail(),
    }
}
