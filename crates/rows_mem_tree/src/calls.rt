//! Calls of a tree by their names, and what they answer.
use mc_text::Path;
use rows_page::{Page, two_fields};
use std::alloc::Global;
use std::convert::AsStr;
use tree_trait::{Tree, TreeError};

/// A line for each call: the call, and what it answers.
pub fn tell_calls<T: Tree>(page: &mut Page, tree: &mut T, calls: &str) {
    for call in calls.lines() {
        page.put(call);
        page.put(": ");
        tell_call(page, tree, call);
        page.put("\n");
    }
}

/// What a call answers, or why it is refused.
pub fn tell_call<T: Tree>(page: &mut Page, tree: &mut T, call: &str) {
    let (name, paths) = two_fields(call, ' ');
    let (path, to) = two_fields(paths, ' ');
    match name {
        "faults" => page.tell(tree.faults()),
        "rename" => tell_renaming(page, tree, path, to),
        _ => tell_called(page, tree, name, path),
    }
}

fn tell_renaming<T: Tree>(page: &mut Page, tree: &mut T, from: &str, to: &str) {
    let (Ok(from), Ok(to)) = (
        Path::parse(page.alloc(), from),
        Path::parse(page.alloc(), to),
    ) else {
        return page.fail();
    };
    tell_done(page, tree.rename(page.alloc(), &from, &to));
}

fn tell_called<T: Tree>(page: &mut Page, tree: &mut T, name: &str, path: &str) {
    match Path::parse(page.alloc(), path) {
        Ok(path) => tell_at(page, tree, name, &path),
        Err(_error) => page.fail(),
    }
}

fn tell_at<T: Tree>(page: &mut Page, tree: &mut T, name: &str, path: &Path) {
    let alloc = page.alloc();
    match name {
        "mount" => tell_mount(page, tree, path),
        "read-link" => tell_link(page, tree, path),
        "stat" => tell_done(page, tree.stat(alloc, path)),
        "list" => tell_done(page, tree.list(alloc, path)),
        "read" => tell_done(page, tree.read_at(alloc, path, 1, &mut [0; 4])),
        _ => tell_done(page, changed(alloc, tree, name, path)),
    }
}

/// The number of the mount on which a thing stands.
fn tell_mount<T: Tree>(page: &mut Page, tree: &mut T, path: &Path) {
    match tree.stat(page.alloc(), path) {
        Ok(meta) => page.tell(meta.mount),
        Err(refusal) => page.tell(format_args!("{refusal:?}")),
    }
}

fn tell_link<T: Tree>(page: &mut Page, tree: &mut T, path: &Path) {
    match tree.read_link(page.alloc(), path) {
        Ok(text) => page.put(text.as_str()),
        Err(refusal) => page.tell(format_args!("{refusal:?}")),
    }
}

/// That a call was made, or why it is refused.
fn tell_done<A: Drop>(page: &mut Page, answer: Result<A, TreeError>) {
    match answer {
        Ok(_answer) => page.put("done"),
        Err(refusal) => page.tell(format_args!("{refusal:?}")),
    }
}

/// A call that may change something.
fn changed<T: Tree>(alloc: Global, tree: &mut T, name: &str, path: &Path) -> Result<(), TreeError> {
    match name {
        "make" => tree.make_file(alloc, path, 0o644),
        "write" => tree.write_at(alloc, path, 7, b"zz"),
        "mode" => tree.set_mode(alloc, path, 0o600),
        "folder" => tree.make_folder(alloc, path, 0o700),
        "link" => tree.make_link(alloc, path, "file"),
        "remove" => tree.remove_file(alloc, path),
        "remove-folder" => tree.remove_folder(alloc, path),
        "sync-file" => tree.sync_file(alloc, path),
        _ => tree.sync_folder(alloc, path),
    }
}
