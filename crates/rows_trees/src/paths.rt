//! Paths in rows: how they are spelled, and how they are told.
use mc_text::Path;
use rows_page::{Page, number, repeated};
use std::convert::AsStr;

/// The longest path that is told whole.
const SHORT_PATH: usize = 60;

/// The path that a field spells. A number between signs `*` stands for so many letters `n`.
pub fn path_spelled(page: &mut Page, field: &str) -> Page {
    let mut path = Page::new(page.alloc());
    for (place, part) in field.split('*').enumerate() {
        if place % 2 == 0 {
            path.put(part);
        } else {
            path.put(repeated(page.alloc(), "n", number(part)).text());
        }
    }
    path
}

/// The same, as a path.
pub fn path_of(page: &mut Page, field: &str) -> Option<Path> {
    let path = path_spelled(page, field);
    Path::parse(page.alloc(), path.text()).ok()
}

/// A path, or, where it is long, how its last name begins and how many bytes the path has.
pub fn tell_path(page: &mut Page, path: &Path) {
    match path.text(page.alloc()) {
        Ok(text) => tell_text(page, text.as_str()),
        Err(_error) => page.fail(),
    }
}

fn tell_text(page: &mut Page, text: &str) {
    if text.len() <= SHORT_PATH {
        return page.put(text);
    }
    let (_front, last) = text.rsplit_once('/').unwrap_or((text, text));
    let first = last.chars().next().unwrap_or('/');
    page.tell(format_args!("{first}({})", text.len()));
}
