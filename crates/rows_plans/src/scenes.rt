//! The trees in which requests are planned.
ghost use Rattle.std.specs.Bool.{OnTrue};
ghost use Rattle.tree_trait.specs.Answers.{IsLinkText};

use crate::fields::repeated;
use crate::requests::tell_planned;
use mc_text::Path;
use mem_tree::MemTree;
use rows_page::{Page, number, two_fields};
use std::alloc::Global;
use tree_trait::Tree;

/// Folders, whose mode is 0o755.
const FOLDERS: &str = r"/a
/a/b
/a/z
/s
/s/d
/t
/t/d
/w
/w/f\
/shut";

/// Empty files, whose mode is 0o644.
const FILES: &str = r"/a/m
/a/x
/a/z/z
/s/..x
/s/.x
/s/a.b.c
/s/abc
/s/d/y
/s/file.c
/s/p.c
/s/q.c
/s/x
/t/ab
/t/ba
/t/d/x
/w/*
/w/a\b
/shut/z";

/// Links, each with its text.
const LINKS: &str = "/l -> t
/gone -> missing
/loop -> loop";

/// What is planned of a row in a tree of its own.
pub fn tell_plan(page: &mut Page, asked: &str, fields: &str, row: &str) {
    match MemTree::new(page.alloc(), 0) {
        Ok(tree) => tell_plan_in(page, tree, asked, fields, row),
        Err(_error) => page.fail(),
    }
}

fn tell_plan_in(page: &mut Page, tree: MemTree, asked: &str, fields: &str, row: &str) {
    let mut tree = tree;
    match asked {
        "fault" => tell_with_fault(page, &mut tree, fields),
        "removed" => tell_after_removal(page, &mut tree, fields),
        "deep" => tell_in_deep_folder(page, &mut tree, number(fields)),
        _ => {
            plant(page, &mut tree);
            tell_planned(page, &mut tree, row);
        }
    }
}

/// What is planned where a call fails: the first field says which, counted from the plan's first call on.
fn tell_with_fault(page: &mut Page, tree: &mut MemTree, fields: &str) {
    let (failing, row) = two_fields(fields, '|');
    let calls = plant(page, tree).saturating_add(number(failing) as u64);
    page.need(tree.fail_calls(page.alloc(), &[calls]).is_ok());
    tell_planned(page, tree, row);
}

/// What is planned once a file has gone, which is the first field.
fn tell_after_removal<T: Tree>(page: &mut Page, tree: &mut T, fields: &str) {
    let (gone, row) = two_fields(fields, '|');
    plant(page, tree);
    let Ok(gone) = Path::parse(page.alloc(), gone) else {
        return page.fail();
    };
    page.need(tree.remove_file(page.alloc(), &gone).is_ok());
    tell_planned(page, tree, row);
}

/// A file is copied to a name of so many letters in a folder whose path has 3,842 bytes; and a folder of
/// that name is made there.
fn tell_in_deep_folder<T: Tree>(page: &mut Page, tree: &mut T, letters: usize) {
    let name = repeated(page.alloc(), "n", letters);
    let folder = plant_deep(page, tree);
    let mut copy = Page::new(page.alloc());
    copy.tell(format_args!("copy|/|*|/p|{}/{}", folder.text(), name.text()));
    tell_planned(page, tree, copy.text());
    page.put("; ");
    let mut made = Page::new(page.alloc());
    made.tell(format_args!("folder|/|{}/{}", folder.text(), name.text()));
    tell_planned(page, tree, made.text());
}

/// Plants the folders, the files, the links, a file whose name has 130 letters, and takes all rights away
/// from `/shut`. Gives the number of calls.
fn plant<T: Tree>(page: &mut Page, tree: &mut T) -> u64 {
    let mut calls = 2u64;
    for folder in FOLDERS.lines() {
        plant_folder(page, tree, folder);
        calls = calls.saturating_add(1);
    }
    for file in FILES.lines() {
        plant_file(page, tree, file);
        calls = calls.saturating_add(1);
    }
    for link in LINKS.lines() {
        plant_link(page, tree, link);
        calls = calls.saturating_add(1);
    }
    plant_long(page, tree);
    shut(page, tree);
    calls
}

fn plant_long<T: Tree>(page: &mut Page, tree: &mut T) {
    let mut path = Page::new(page.alloc());
    path.put("/");
    path.put(repeated(page.alloc(), "b", 130).text());
    plant_file(page, tree, path.text());
}

/// Plants the file `/p` and a folder within fifteen, whose path has 3,842 bytes, and gives that path.
fn plant_deep<T: Tree>(page: &mut Page, tree: &mut T) -> Page {
    plant_file(page, tree, "/p");
    let name = repeated(page.alloc(), "f", 255);
    let mut path = Page::new(page.alloc());
    for _ in 0..15 {
        path.put("/");
        path.put(name.text());
        plant_folder(page, tree, path.text());
    }
    path.put("/f");
    plant_folder(page, tree, path.text());
    path
}

fn plant_folder<T: Tree>(page: &mut Page, tree: &mut T, path: &str) {
    let Ok(path) = Path::parse(page.alloc(), path) else {
        return page.fail();
    };
    page.need(tree.make_folder(page.alloc(), &path, 0o755).is_ok());
}

fn plant_file<T: Tree>(page: &mut Page, tree: &mut T, path: &str) {
    let Ok(path) = Path::parse(page.alloc(), path) else {
        return page.fail();
    };
    page.need(tree.make_file(page.alloc(), &path, 0o644).is_ok());
}

fn shut<T: Tree>(page: &mut Page, tree: &mut T) {
    let Ok(path) = Path::parse(page.alloc(), "/shut") else {
        return page.fail();
    };
    page.need(tree.set_mode(page.alloc(), &path, 0).is_ok());
}

/// Plants a link. An arrow stands between its path and its text.
fn plant_link<T: Tree>(page: &mut Page, tree: &mut T, line: &str) {
    let (path, text) = line.split_once(" -> ").unwrap_or((line, ""));
    let planted = may_be_link_text(text) && link(page.alloc(), tree, path, text);
    page.need(planted);
}

fn link<T: Tree>(alloc: Global, tree: &mut T, path: &str, text: &str) -> bool
    requires { IsLinkText text.now }
{
    match Path::parse(alloc, path) {
        Ok(path) => tree.make_link(alloc, &path, text).is_ok(),
        Err(_error) => false,
    }
}

/// Whether a link may say this: 1 to 4,095 bytes and no NUL.
fn may_be_link_text(text: &str) -> bool
    ensures { OnTrue result (IsLinkText text.now) }
{
    !text.is_empty() && text.len() <= 4095 && text.as_bytes().iter().all(|byte| *byte != 0)
}
