//! Searches that are asked for by keys, and the screens that they lead to.
use crate::asking::tell_found;
use key_screen::{Base, Grid, Key};
use mc_text::Path;
use rows_boxes::{keys_of, tell_screen};
use rows_page::{Page, two_fields};
use rows_trees::path_of;
use tagging::PatternKind;
use tree_trait::Tree;
use ui_find::{FindAct, FindMode, FindRefusal};

/// How many lines the screen has.
const LINES: u16 = 10;

/// How many columns it has.
const COLUMNS: u16 = 40;

/// The most steps of a search.
const STEPS: usize = 100_000;

/// The screen behind the words of a row: from which folder, how, and keys, where `step` is a step of the
/// search, `run` are all, and `C-c` is the key that stops it.
pub fn tell_key_row<T: Tree>(page: &mut Page, tree: &mut T, row: &str) {
    let (folder, fields) = two_fields(row, '|');
    let (ways, words) = two_fields(fields, '|');
    let Some(folder) = path_of(page, folder) else {
        return page.fail();
    };
    let hidden = ways.contains("hidden");
    let home = home_of(page, ways);
    match FindMode::open(page.alloc(), LINES, &folder, &home, kind_of(ways), hidden) {
        Ok(mut mode) => tell_worked(page, tree, &mut mode, words),
        Err(_error) => page.fail(),
    }
}

/// HOME, which is `/c` where the words have it.
fn home_of(page: &mut Page, ways: &str) -> Option<Path> {
    if ways.contains("home") {
        path_of(page, "/c")
    } else {
        None
    }
}

fn kind_of(ways: &str) -> PatternKind {
    if ways.contains("regex") {
        PatternKind::Regex
    } else {
        PatternKind::Shell
    }
}

/// C-c, the key that stops the search.
const STOP: Key = Key {
    meta: false,
    base: Base::Ctrl(b'c'),
};

/// Works each word, and shows the screen. What a key comes to stands before it, but where it is
/// only asked or sought on.
fn tell_worked<T: Tree>(page: &mut Page, tree: &mut T, mode: &mut FindMode, words: &str) {
    for word in words.split(' ') {
        match word {
            "" => (),
            "step" => step(page, tree, mode),
            "run" => run(page, tree, mode),
            "C-c" => tell_key(page, tree, mode, STOP),
            _ => tell_keys(page, tree, mode, word),
        }
    }
    match Grid::blank(page.alloc(), LINES, COLUMNS) {
        Ok(mut grid) => {
            page.need(mode.paint(page.alloc(), &mut grid).is_ok());
            page.put(" ");
            tell_screen(page, &grid);
        }
        Err(_error) => page.fail(),
    }
}

fn step<T: Tree>(page: &mut Page, tree: &mut T, mode: &mut FindMode) {
    page.need(mode.step(page.alloc(), tree).is_ok());
}

fn run<T: Tree>(page: &mut Page, tree: &mut T, mode: &mut FindMode) {
    for _ in 0..STEPS {
        if !mode.is_searching() {
            return;
        }
        step(page, tree, mode);
    }
    page.fail();
}

fn tell_keys<T: Tree>(page: &mut Page, tree: &mut T, mode: &mut FindMode, word: &str) {
    for key in keys_of(page, word).as_slice() {
        tell_key(page, tree, mode, *key);
    }
}

fn tell_key<T: Tree>(page: &mut Page, tree: &mut T, mode: &mut FindMode, key: Key) {
    match mode.key(page.alloc(), tree, key) {
        Ok(FindAct::Stays) => (),
        Ok(FindAct::Refused(FindRefusal::NoWay(error))) => page.tell(format_args!(" {error}")),
        Ok(FindAct::Refused(FindRefusal::NoPattern)) => page.put(" no pattern"),
        Ok(FindAct::Goes(path)) => {
            page.put(" goes");
            tell_found(page, &path);
        }
        Ok(FindAct::Leaves) => page.put(" leaves"),
        Err(_error) => page.fail(),
    }
}
