//! The trees that the rows begin with.
ghost use Rattle.std.specs.Prelude.{◌≡◌, ◌<◌, ◌≤◌, [], length, IfOk};

use mc_text::{NoMemory, Path};
use mem_tree::MemTree;
use rows_page::Page;
use std::alloc::Global;
use tree_trait::Tree;

/// The file that is copied.
pub const SOURCE: &str = "/s/e";

/// Where it is to come.
pub const TARGET: &str = "/t/e";

/// The folder of the target.
pub const FOLDER: &str = "/t";

/// What the source holds, and its mode.
#[derive(Debug, Drop)]
pub struct Original {
    pub bytes: Vec<u8>,
    pub mode: u16,
}

impl Original {
    /// So many bytes, of which neighbours differ.
    pub fn new(page: &mut Page, size: u32, mode: u16) -> Original {
        let mut bytes = Vec::new(page.alloc());
        let mut byte = 0u8;
        for _ in 0..size {
            page.need(bytes.push(byte).is_ok());
            byte = byte.wrapping_add(1);
        }
        Original { bytes, mode }
    }
}

/// A tree with nothing but its root.
pub fn fresh(alloc: Global) -> Result<MemTree, NoMemory>
    ensures unused { IfOk result (λ tree. tree.log.changes ≡ []) }
    ensures few { IfOk result (λ tree. length tree.log.opening.mounts < 1000) }
{
    MemTree::new(alloc, 0)
}

/// Plants the source, and a folder for the target. With `room` a mount begins there whose
/// files may have so many bytes.
pub fn plant(page: &mut Page, tree: &mut MemTree, original: &Original, room: Option<u64>)
    requires unused { tree.old.log.changes ≡ [] }
    requires few { length tree.old.log.opening.mounts < 1000 }
{
    let planted = put_target_folder(page.alloc(), tree, room);
    page.need(planted);
    let planted = put_source(page.alloc(), tree, original);
    page.need(planted);
}

fn put_target_folder(alloc: Global, tree: &mut MemTree, room: Option<u64>) -> bool
    requires unused { tree.old.log.changes ≡ [] }
    requires few { length tree.old.log.opening.mounts < 1000 }
    ensures unused { tree.new.log.changes ≡ [] }
{
    let Ok(folder) = Path::parse(alloc, FOLDER) else {
        return false;
    };
    match room {
        Some(room) => tree.mount(alloc, &folder, room).is_ok(),
        None => tree.put_folder(alloc, &folder, 0o755, 0).is_ok(),
    }
}

fn put_source(alloc: Global, tree: &mut MemTree, original: &Original) -> bool
    requires unused { tree.old.log.changes ≡ [] }
{
    let (Ok(folder), Ok(source)) = (Path::parse(alloc, "/s"), Path::parse(alloc, SOURCE)) else {
        return false;
    };
    tree.put_folder(alloc, &folder, 0o755, 0).is_ok()
        && put_original(alloc, tree, &source, original)
}

/// A mode has twelve bits.
fn put_original(alloc: Global, tree: &mut MemTree, source: &Path, original: &Original) -> bool
    requires unused { tree.old.log.changes ≡ [] }
{
    original.mode <= 0o7777
        && tree
            .put_file(alloc, source, original.mode, 0, original.bytes.as_slice())
            .is_ok()
}

/// Takes the first so many names that a part of job 1 may have.
pub fn take_names<T: Tree>(page: &mut Page, tree: &mut T, count: u32) {
    for number in 0..count {
        take_name(page, tree, number);
    }
}

fn take_name<T: Tree>(page: &mut Page, tree: &mut T, number: u32) {
    let mut text = Page::new(page.alloc());
    text.tell(format_args!("{FOLDER}/.mc.1.{number}.part"));
    match Path::parse(page.alloc(), text.text()) {
        Ok(path) => page.need(tree.make_file(page.alloc(), &path, 0o600).is_ok()),
        Err(_error) => page.fail(),
    }
}
