//! A viewer that is worked by keys, and the screen that it shows.
ghost use Rattle.std.specs.Prelude.{◌≤◌};

use crate::files::{remove, write};
use key_screen::Key;
use mc_text::Path;
use rows_boxes::{keys_of, tell_screen};
use rows_page::Page;
use tree_trait::Tree;
use ui_viewer::{ViewerAct, ViewerMode};

/// How many lines the screen has.
const LINES: u16 = 10;

/// The screen behind the keys, or why there is none.
pub fn tell_keyed<T: Tree>(page: &mut Page, tree: &mut T, path: &Path, columns: u16, words: &str) {
    let columns = columns.clamp(40, 400);
    match ViewerMode::open(page.alloc(), tree, path, LINES, columns) {
        Ok(mut mode) => tell_worked(page, tree, &mut mode, columns, words),
        Err(error) => page.tell(format_args!("{error:?}")),
    }
}

/// Works each key, and shows the screen. What a key comes to stands before it, but where
/// the file is only viewed on.
fn tell_worked<T: Tree>(
    page: &mut Page,
    tree: &mut T,
    mode: &mut ViewerMode,
    columns: u16,
    words: &str,
) {
    for word in words.split(' ') {
        match word {
            "" => (),
            "remove" => remove(page, tree),
            _ => tell_word(page, tree, mode, word),
        }
    }
    match mode.frame(page.alloc(), LINES, columns) {
        Ok(grid) => tell_screen(page, &grid),
        Err(_error) => page.fail(),
    }
}

/// Writes the file anew, or works a key, or each character of a text.
fn tell_word<T: Tree>(page: &mut Page, tree: &mut T, mode: &mut ViewerMode, word: &str) {
    if let Some(bytes) = word.strip_prefix("write:") {
        return write(page, tree, bytes);
    }
    for key in keys_of(page, word).as_slice() {
        tell_key(page, tree, mode, *key);
    }
}

fn tell_key<T: Tree>(page: &mut Page, tree: &mut T, mode: &mut ViewerMode, key: Key) {
    match mode.key(page.alloc(), tree, key) {
        Ok(ViewerAct::Stays) => (),
        Ok(ViewerAct::Refused(error)) => page.tell(format_args!("{error:?} ")),
        Ok(ViewerAct::Leaves) => page.put("leaves "),
        Err(_error) => page.fail(),
    }
}
