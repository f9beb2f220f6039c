//! Paths and names, by chance. Where memory is wanting the page notes it, and something shorter is given.
use crate::chance::Chance;
use job_reports::Pair;
use mc_text::{Name, Names, Path, Paths};
use rows_page::Page;
use std::alloc::Global;

/// Some name. Two begin with the same byte of no ASCII; the last is so long that a few fill a path.
fn some_name(chance: &mut Chance) -> &'static str {
    match chance.below(9) {
        0 => "a",
        1 => "ab",
        2 => "notes.txt",
        3 => "part-of-notes.txt",
        4 => "é",
        5 => "è",
        6 => "日本",
        7 => "a name of more bytes than sixteen, and of more than most have",
        _ => {
            "a-name-of-two-hundred-bytes-----------------------------------------------------------\
             ---------------------------------------------------------------------------------------\
             --------------------------"
        }
    }
}

/// A path of fewer names than this.
pub fn some_path(page: &mut Page, chance: &mut Chance, names: u32) -> Path {
    let text = some_text(page.alloc(), chance, names);
    page.need(text.is_whole());
    match Path::parse(page.alloc(), text.text()) {
        Ok(path) => path,
        Err(_error) => {
            page.fail();
            Path::root(page.alloc())
        }
    }
}

fn some_text(alloc: Global, chance: &mut Chance, names: u32) -> Page {
    let mut text = Page::new(alloc);
    text.put("/");
    for at in 0..chance.below(names) {
        if at > 0 {
            text.put("/");
        }
        text.put(some_name(chance));
    }
    text
}

pub fn some_pair(page: &mut Page, chance: &mut Chance) -> Pair {
    Pair {
        source: some_path(page, chance, 5),
        target: some_path(page, chance, 5),
    }
}

/// A list of one path.
pub fn one_path(page: &mut Page, chance: &mut Chance) -> Paths {
    let path = some_path(page, chance, 5);
    let mut paths = Paths::new(page.alloc());
    page.need(paths.push(path).is_ok());
    paths
}

/// None, one or two names.
pub fn some_names(page: &mut Page, chance: &mut Chance) -> Names {
    let mut names = Names::new(page.alloc());
    for _ in 0..chance.below(3) {
        push_name(page, &mut names, some_name(chance));
    }
    names
}

fn push_name(page: &mut Page, names: &mut Names, text: &str) {
    match Name::new(page.alloc(), text) {
        Ok(name) => page.need(names.push(name).is_ok()),
        Err(_error) => page.fail(),
    }
}
