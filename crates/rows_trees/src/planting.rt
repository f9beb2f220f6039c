//! Things that the calls of a tree make.
ghost use Rattle.std.specs.Prelude.{◌≤◌};
ghost use Rattle.std.specs.Bool.{OnTrue};
ghost use Rattle.tree_trait.specs.Answers.{IsLinkText};

use crate::paths::path_of;
use mc_text::Path;
use rows_page::{Page, two_fields};
use std::alloc::Global;
use tree_trait::Tree;

/// Makes what each line spells: behind `folder ` a folder of mode 0o755, behind `file ` an
/// empty file of mode 0o644, behind `link ` a link, with an arrow between its path and its
/// text. Gives the number of calls.
pub fn plant<T: Tree>(page: &mut Page, tree: &mut T, lines: &str) -> u64 {
    let mut calls = 0u64;
    for line in lines.lines() {
        plant_line(page, tree, line);
        calls = calls.saturating_add(1);
    }
    calls
}

fn plant_line<T: Tree>(page: &mut Page, tree: &mut T, line: &str) {
    let (kind, path) = line.split_once(' ').unwrap_or((line, ""));
    match kind {
        "folder" => plant_folder(page, tree, path, 0o755),
        "file" => plant_file(page, tree, path, 0o644),
        "link" => plant_link_line(page, tree, path),
        _ => page.fail(),
    }
}

fn plant_link_line<T: Tree>(page: &mut Page, tree: &mut T, line: &str) {
    let (path, text) = line.split_once(" -> ").unwrap_or((line, ""));
    plant_link(page, tree, path, text);
}

pub fn plant_folder<T: Tree>(page: &mut Page, tree: &mut T, path: &str, mode: u16)
    requires { mode ≤ 0o7777 }
{
    let Ok(path) = Path::parse(page.alloc(), path) else {
        return page.fail();
    };
    page.need(tree.make_folder(page.alloc(), &path, mode).is_ok());
}

pub fn plant_file<T: Tree>(page: &mut Page, tree: &mut T, path: &str, mode: u16)
    requires { mode ≤ 0o7777 }
{
    let Ok(path) = Path::parse(page.alloc(), path) else {
        return page.fail();
    };
    page.need(tree.make_file(page.alloc(), &path, mode).is_ok());
}

pub fn plant_link<T: Tree>(page: &mut Page, tree: &mut T, path: &str, text: &str) {
    let planted = may_be_link_text(text) && link(page.alloc(), tree, path, text);
    page.need(planted);
}

fn link<T: Tree>(alloc: Global, tree: &mut T, path: &str, text: &str) -> bool
    requires { IsLinkText text.now }
{
    match Path::parse(alloc, path) {
        Ok(path) => tree.make_link(alloc, &path, text).is_ok(),
        Err(_error) => false,
    }
}

/// Whether a link may say this: 1 to 4,095 bytes and no NUL.
pub fn may_be_link_text(text: &str) -> bool
    ensures { OnTrue result (IsLinkText text.now) }
{
    !text.is_empty() && text.len() <= 4095 && text.as_bytes().iter().all(|byte| *byte != 0)
}

/// Renames a thing; its path and the new one are spelled with a mark between them.
pub fn move_thing<T: Tree>(page: &mut Page, tree: &mut T, paths: &str, mark: char) {
    let (from, to) = two_fields(paths, mark);
    let Some(from) = path_of(page, from) else {
        return page.fail();
    };
    let Some(to) = path_of(page, to) else {
        return page.fail();
    };
    page.need(tree.rename(page.alloc(), &from, &to).is_ok());
}

pub fn set_mode<T: Tree>(page: &mut Page, tree: &mut T, path: &str, mode: u16)
    requires { mode ≤ 0o7777 }
{
    let Ok(path) = Path::parse(page.alloc(), path) else {
        return page.fail();
    };
    page.need(tree.set_mode(page.alloc(), &path, mode).is_ok());
}
