//! Two copies that are made wrong, so that it is seen that their images are told from safe ones.
ghost use Rattle.std.specs.Prelude.{◌≡◌, ◌<◌, [], length};

use crate::images::tell_images;
use crate::scene::{FOLDER, Original, TARGET, fresh, plant};
use mc_text::Path;
use mem_tree::MemTree;
use rows_page::Page;
use std::alloc::Global;
use tree_trait::{Tree, TreeError};

/// A copy that is made wrong.
#[derive(Clone, Copy)]
enum Wrong {
    WithoutPart,
    WithoutSync,
}

pub fn tell_wrong(page: &mut Page) {
    page.put("wrong: a copy without a part\n");
    tell_copy(page, Wrong::WithoutPart);
    page.put("wrong: a part that is not synced before it is renamed\n");
    tell_copy(page, Wrong::WithoutSync);
}

/// The images of a wrong copy.
fn tell_copy(page: &mut Page, wrong: Wrong) {
    let original = Original::new(page, 5, 0o644);
    match fresh(page.alloc()) {
        Ok(tree) => tell_copy_in(page, tree, &original, wrong),
        Err(_error) => page.fail(),
    }
}

fn tell_copy_in(page: &mut Page, tree: MemTree, original: &Original, wrong: Wrong)
    requires unused { tree.log.changes ≡ [] }
    requires few { length tree.log.opening.mounts < 1000 }
{
    let mut tree = tree;
    plant(page, &mut tree, original, None);
    let copied = copy_wrong(page.alloc(), &mut tree, original.bytes.as_slice(), wrong);
    page.need(copied);
    tell_images(page, &tree, original);
}

fn copy_wrong<T: Tree>(alloc: Global, tree: &mut T, bytes: &[u8], wrong: Wrong) -> bool {
    let (Ok(part), Ok(target), Ok(folder)) = (
        Path::parse(alloc, "/t/.mc.1.0.part"),
        Path::parse(alloc, TARGET),
        Path::parse(alloc, FOLDER),
    ) else {
        return false;
    };
    match wrong {
        Wrong::WithoutPart => copy_without_part(alloc, tree, &target, &folder, bytes).is_ok(),
        Wrong::WithoutSync => copy_without_sync(
            alloc, tree, &part, &target, &folder, bytes,
        ).is_ok(),
    }
}

fn copy_without_part<T: Tree>(
    alloc: Global,
    tree: &mut T,
    target: &Path,
    folder: &Path,
    bytes: &[u8],
) -> Result<(), TreeError> {
    tree.make_file(alloc, target, 0o644)?;
    tree.write_at(alloc, target, 0, bytes)?;
    tree.sync_file(alloc, target)?;
    tree.sync_folder(alloc, folder)
}

fn copy_without_sync<T: Tree>(
    alloc: Global,
    tree: &mut T,
    part: &Path,
    target: &Path,
    folder: &Path,
    bytes: &[u8],
) -> Result<(), TreeError> {
    tree.make_file(alloc, part, 0o644)?;
    tree.write_at(alloc, part, 0, bytes)?;
    tree.rename(alloc, part, target)?;
    tree.sync_folder(alloc, folder)
}
