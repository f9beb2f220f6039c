//! A search, and its answers up to the end.
use find_file::{Finder, Found};
use mc_text::{Bytes, Path};
use rows_page::{Page, bytes_of, two_fields};
use rows_trees::{move_thing, path_of, tell_path};
use tagging::Pattern;
use tree_trait::Tree;

/// The most answers of a row.
const ANSWERS: usize = 60;

/// What comes of a row: a search, or behind `move` a renaming.
pub fn tell_row<T: Tree>(page: &mut Page, tree: &mut T, row: &str) {
    match row.strip_prefix("move|") {
        Some(paths) => {
            move_thing(page, tree, paths, '|');
            page.put(" moved");
        }
        None => tell_search(page, tree, row),
    }
}

/// Where it is sought, how, which names, and which content.
fn tell_search<T: Tree>(page: &mut Page, tree: &mut T, row: &str) {
    let (start, fields) = two_fields(row, '|');
    let (ways, fields) = two_fields(fields, '|');
    let (name, content) = two_fields(fields, '|');
    match finder_of(page, start, ways, name, content) {
        Some(mut finder) => tell_answers(page, tree, &mut finder),
        None => page.fail(),
    }
}

/// The search that is spelled. Its ways are words: `deep` goes into folders, `hidden` meets hidden names,
/// `regex` makes the pattern a regular expression.
fn finder_of(
    page: &mut Page,
    start: &str,
    ways: &str,
    name: &str,
    content: &str,
) -> Option<Finder> {
    let start = path_of(page, start)?;
    let pattern = pattern_of(page, ways, name)?;
    let content = content_of(page, content);
    let deep = ways.contains("deep");
    let hidden = ways.contains("hidden");
    Finder::new(page.alloc(), start, pattern, content, deep, hidden).ok()
}

fn pattern_of(page: &mut Page, ways: &str, name: &str) -> Option<Pattern> {
    if ways.contains("regex") {
        Pattern::regex(page.alloc(), name).ok()
    } else {
        Pattern::shell(page.alloc(), name).ok()
    }
}

/// The content, unless the field is a dash.
fn content_of(page: &mut Page, field: &str) -> Option<Bytes> {
    if field == "-" {
        return None;
    }
    Some(Bytes(bytes_of(page, field)))
}

/// The answers up to the end, and the one behind it.
fn tell_answers<T: Tree>(page: &mut Page, tree: &mut T, finder: &mut Finder) {
    for _ in 0..ANSWERS {
        if tell_next(page, tree, finder) {
            tell_next(page, tree, finder);
            return;
        }
    }
    page.fail();
}

/// The next answer, and whether it is the end.
fn tell_next<T: Tree>(page: &mut Page, tree: &mut T, finder: &mut Finder) -> bool {
    match finder.next(page.alloc(), tree) {
        Ok(Found::Path(path)) => tell_found(page, &path),
        Ok(Found::Skipped(path, error)) => {
            tell_found(page, &path);
            page.tell(format_args!(": {error}"));
        }
        Ok(Found::End) => {
            page.put(" end");
            return true;
        }
        Err(_error) => page.fail(),
    }
    false
}

/// A path behind a blank.
pub fn tell_found(page: &mut Page, path: &Path) {
    page.put(" ");
    tell_path(page, path);
}
