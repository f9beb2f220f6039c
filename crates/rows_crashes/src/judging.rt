//! What is left in a crash image, in words.
use crate::scenes::{COPIED, DELETED, Original, REPLACED, SET, Scene};
use mc_text::{Kind, Name, Path};
use rows_page::Page;
use std::convert::AsStr;
use tree_trait::{Meta, Tree, TreeError};

/// What stands at a path.
#[derive(Clone, Copy)]
enum Standing {
    /// The file as it was put, or an empty folder or a link as it was made or put.
    Whole,
    Missing,
    /// Anything else.
    Torn,
}

/// What an image has of the files of a session.
pub fn tell_left<T: Tree>(page: &mut Page, image: &mut T, scene: Scene) {
    match scene {
        Scene::Deletion => tell_deletion(page, image),
        Scene::Folder => tell_folder_deletion(page, image),
        Scene::Copy => tell_copy(page, image),
        Scene::Overwriting => tell_overwriting(page, image),
        Scene::LinkOver => tell_link_over(page, image),
        Scene::LeftFolder => tell_deletion(page, image),
        Scene::LeftTarget => tell_copy(page, image),
        Scene::NewFolder => tell_new_folder(page, image, "/a/n"),
        Scene::LeftNewFolder => tell_new_folders(page, image),
        Scene::NewLink => tell_link(page, image, "/a/l", "x"),
        Scene::Mode => tell_modes(page, image),
        Scene::LeftMode => tell_modes(page, image),
        Scene::Tree => tell_tree(page, image),
        Scene::Move => tell_copy(page, image),
        Scene::MoveOver => tell_overwriting(page, image),
        Scene::LeftMove => tell_copy(page, image),
        Scene::FolderMove => tell_tree(page, image),
        Scene::LeftFolderMove => tell_tree(page, image),
        Scene::Merge => tell_merge(page, image),
        Scene::KeptMerge => tell_merge(page, image),
    }
}

fn tell_deletion<T: Tree>(page: &mut Page, image: &mut T) {
    tell_file(page, image, "/a/x", DELETED, "gone");
    page.put(", the one beside it ");
    tell_file(page, image, "/a/y", DELETED, "gone");
}

fn tell_folder_deletion<T: Tree>(page: &mut Page, image: &mut T) {
    let folder = what_of_folder(page, image, "/a/d");
    page.put(word_of(folder, "gone"));
    page.put(", the file in it ");
    tell_file(page, image, "/a/d/x", DELETED, "gone");
    page.put(", the one beside it ");
    tell_file(page, image, "/a/y", DELETED, "gone");
}

/// What stands where a folder was put.
fn what_of_folder<T: Tree>(page: &mut Page, image: &mut T, path: &str) -> Standing {
    match Path::parse(page.alloc(), path) {
        Ok(path) => folder_at(page, image, &path),
        Err(_error) => wanting(page),
    }
}

fn folder_at<T: Tree>(page: &mut Page, image: &mut T, path: &Path) -> Standing {
    match image.stat(page.alloc(), path) {
        Err(TreeError::Missing) => Standing::Missing,
        Err(_error) => wanting(page),
        Ok(meta) if meta.kind == Kind::Folder && meta.mode == 0o755 => Standing::Whole,
        Ok(_) => Standing::Torn,
    }
}

/// Something is wanting, so the page says nothing of what stands.
fn wanting(page: &mut Page) -> Standing {
    page.fail();
    Standing::Torn
}

fn tell_copy<T: Tree>(page: &mut Page, image: &mut T) {
    tell_file(page, image, "/t/e", COPIED, "missing");
    page.put(", the source ");
    tell_file(page, image, "/s/e", COPIED, "missing");
    page.put(", beside it ");
    tell_beside(page, image, "/t", "e");
}

fn tell_overwriting<T: Tree>(page: &mut Page, image: &mut T) {
    tell_target(page, image, "/t/e");
    page.put(", the source ");
    tell_file(page, image, "/s/e", COPIED, "missing");
    page.put(", beside it ");
    tell_beside(page, image, "/t", "e");
}

fn tell_link_over<T: Tree>(page: &mut Page, image: &mut T) {
    tell_target_link(page, image, "/t/l");
    page.put(", the source ");
    tell_link(page, image, "/s/l", "x");
    page.put(", beside it ");
    tell_beside(page, image, "/t", "l");
}

/// Whether the link stands where it is copied over a file, or the file.
fn tell_target_link<T: Tree>(page: &mut Page, image: &mut T, path: &str) {
    match what_link(page, image, path, "x") {
        Standing::Whole => page.put("new"),
        _ => tell_replaced(page, image, path),
    }
}

/// Which of two files stands where one is copied over the other.
fn tell_target<T: Tree>(page: &mut Page, image: &mut T, path: &str) {
    match what_stands(page, image, path, COPIED) {
        Standing::Whole => page.put("new"),
        _ => tell_replaced(page, image, path),
    }
}

fn tell_replaced<T: Tree>(page: &mut Page, image: &mut T, path: &str) {
    match what_stands(page, image, path, REPLACED) {
        Standing::Whole => page.put("old"),
        Standing::Missing => page.put("missing"),
        Standing::Torn => page.put("torn"),
    }
}

fn tell_new_folders<T: Tree>(page: &mut Page, image: &mut T) {
    tell_new_folder(page, image, "/a/n");
    page.put(", the second ");
    tell_new_folder(page, image, "/a/m");
}

/// What stands where a folder is made: it has nothing in it.
fn tell_new_folder<T: Tree>(page: &mut Page, image: &mut T, path: &str) {
    let standing = match what_of_folder(page, image, path) {
        Standing::Whole => if_empty(page, image, path),
        standing => standing,
    };
    page.put(word_of(standing, "missing"));
}

fn if_empty<T: Tree>(page: &mut Page, image: &mut T, path: &str) -> Standing {
    match Path::parse(page.alloc(), path) {
        Ok(path) => if_nothing_in(page, image, &path),
        Err(_error) => wanting(page),
    }
}

fn if_nothing_in<T: Tree>(page: &mut Page, image: &mut T, path: &Path) -> Standing {
    match image.list(page.alloc(), path) {
        Ok(children) if children.unnamed == 0 && children.names.as_slice().is_empty() => {
            Standing::Whole
        }
        Ok(_children) => Standing::Torn,
        Err(_error) => wanting(page),
    }
}

/// What stands where a link with this text is made, or was put.
fn tell_link<T: Tree>(page: &mut Page, image: &mut T, path: &str, text: &str) {
    let standing = what_link(page, image, path, text);
    page.put(word_of(standing, "missing"));
}

fn what_link<T: Tree>(page: &mut Page, image: &mut T, path: &str, text: &str) -> Standing {
    match Path::parse(page.alloc(), path) {
        Ok(path) => link_at(page, image, &path, text),
        Err(_error) => wanting(page),
    }
}

fn link_at<T: Tree>(page: &mut Page, image: &mut T, path: &Path, text: &str) -> Standing {
    match image.read_link(page.alloc(), path) {
        Err(TreeError::Missing) => Standing::Missing,
        Err(_error) => Standing::Torn,
        Ok(said) if said.as_str() == text => Standing::Whole,
        Ok(_said) => Standing::Torn,
    }
}

/// What stands of a folder where it is copied or moved to, and where it was.
fn tell_tree<T: Tree>(page: &mut Page, image: &mut T) {
    tell_tree_at(page, image, "/t/d", "/t/d/e", "/t/d/l");
    page.put(", beside them ");
    tell_beside(page, image, "/t/d", "e l");
    page.put(", the source ");
    tell_tree_at(page, image, "/s/d", "/s/d/e", "/s/d/l");
}

/// What stands of a folder that is moved onto another: there, and where it was.
fn tell_merge<T: Tree>(page: &mut Page, image: &mut T) {
    tell_folder(page, image, "/t/d");
    page.put(", in it ");
    tell_file(page, image, "/t/d/e", COPIED, "missing");
    page.put(" and ");
    tell_target_link(page, image, "/t/d/l");
    page.put(", beside them ");
    tell_beside(page, image, "/t/d", "e l");
    page.put(", the source ");
    tell_folder(page, image, "/s/d");
    page.put(", in it ");
    tell_file(page, image, "/s/d/e", COPIED, "missing");
    page.put(" and ");
    tell_link(page, image, "/s/d/l", "x");
}

/// With which mode a folder stands, and what stands of the file and the link in it.
fn tell_tree_at<T: Tree>(page: &mut Page, image: &mut T, folder: &str, file: &str, link: &str) {
    tell_folder(page, image, folder);
    page.put(", its file ");
    tell_file(page, image, file, COPIED, "missing");
    page.put(", its link ");
    tell_link(page, image, link, "e");
}

fn tell_folder<T: Tree>(page: &mut Page, image: &mut T, folder: &str) {
    match Path::parse(page.alloc(), folder) {
        Ok(folder) => tell_folder_mode(page, image, &folder),
        Err(_error) => page.fail(),
    }
}

fn tell_folder_mode<T: Tree>(page: &mut Page, image: &mut T, path: &Path) {
    match image.stat(page.alloc(), path) {
        Err(TreeError::Missing) => page.put("missing"),
        Err(_error) => page.fail(),
        Ok(meta) if meta.kind == Kind::Folder => page.tell(format_args!("with {:o}", meta.mode)),
        Ok(_) => page.put("torn"),
    }
}

fn tell_modes<T: Tree>(page: &mut Page, image: &mut T) {
    tell_mode(page, image, "/a/x");
    page.put(", the one beside it ");
    tell_mode(page, image, "/a/y");
}

/// With which mode a file stands whose bytes are as they were put.
fn tell_mode<T: Tree>(page: &mut Page, image: &mut T, path: &str) {
    match what_stands(page, image, path, DELETED) {
        Standing::Whole => page.put("with 644"),
        _ => tell_set(page, image, path),
    }
}

fn tell_set<T: Tree>(page: &mut Page, image: &mut T, path: &str) {
    match what_stands(page, image, path, SET) {
        Standing::Whole => page.put("with 600"),
        Standing::Missing => page.put("missing"),
        Standing::Torn => page.put("torn"),
    }
}

/// What stands, in a word; the word for nothing is given.
fn word_of(standing: Standing, missing: &'static str) -> &'static str {
    match standing {
        Standing::Whole => "whole",
        Standing::Missing => missing,
        Standing::Torn => "torn",
    }
}

/// What stands where this file was put or is copied; the word for nothing is given.
fn tell_file<T: Tree>(
    page: &mut Page,
    image: &mut T,
    path: &str,
    original: Original,
    missing: &'static str,
) {
    let standing = what_stands(page, image, path, original);
    page.put(word_of(standing, missing));
}

fn what_stands<T: Tree>(
    page: &mut Page,
    image: &mut T,
    path: &str,
    original: Original,
) -> Standing {
    match Path::parse(page.alloc(), path) {
        Ok(path) => file_at(page, image, &path, original),
        Err(_error) => wanting(page),
    }
}

fn file_at<T: Tree>(page: &mut Page, image: &mut T, path: &Path, original: Original) -> Standing {
    match image.stat(page.alloc(), path) {
        Err(TreeError::Missing) => Standing::Missing,
        Err(_error) => wanting(page),
        Ok(meta) => compared(page, image, path, meta, original),
    }
}

fn compared<T: Tree>(
    page: &mut Page,
    image: &mut T,
    path: &Path,
    meta: Meta,
    original: Original,
) -> Standing {
    if meta.kind != Kind::File || meta.mode != original.mode {
        return Standing::Torn;
    }
    let mut room = [0u8; 8];
    match image.read_at(page.alloc(), path, 0, &mut room) {
        Ok(count) if room.get(..count) == Some(original.bytes) => Standing::Whole,
        Ok(_count) => Standing::Torn,
        Err(_error) => wanting(page),
    }
}

/// What a folder has but these names, where it stands.
fn tell_beside<T: Tree>(page: &mut Page, image: &mut T, folder: &str, names: &str) {
    match Path::parse(page.alloc(), folder) {
        Ok(folder) => tell_things_in(page, image, &folder, names),
        Err(_error) => page.fail(),
    }
}

fn tell_things_in<T: Tree>(page: &mut Page, image: &mut T, folder: &Path, names: &str) {
    match image.list(page.alloc(), folder) {
        Ok(children) if children.unnamed == 0 => {
            page.put(beside(children.names.as_slice(), names));
        }
        Ok(_children) => page.put("a stranger"),
        Err(TreeError::Missing) => page.put("nothing"),
        Err(_error) => page.fail(),
    }
}

/// What there is but the names of what is copied, which are given with a blank between them.
fn beside(found: &[Name], names: &str) -> &'static str {
    let mut part = false;
    for name in found.iter() {
        if is_part(name) {
            part = true;
        } else if !names.split(' ').any(|copied| copied == name.text()) {
            return "a stranger";
        }
    }
    if part { "a part" } else { "nothing" }
}

/// Whether job 1 may give this name to a part.
fn is_part(name: &Name) -> bool {
    let text = name.text();
    text.starts_with(".mc.1.") && text.ends_with(".part")
}
