//! Trees in memory with several mounts.
ghost use Rattle.std.specs.Prelude.{◌≡◌, ◌<◌, length, reverse, IfOk};
ghost use Rattle.tree_trait.specs.Change.{Makes, after_change, of_name};
ghost use Rattle.mem_tree.specs.Held.{folder_node};
ghost use Rattle.mem_tree.specs.Puts.{mounted_system, put_refusal, IsRefusedBy};

use crate::copies::copy_of;
use crate::make::{folder_node, refuse_put};
use crate::perform::place;
use mc_text::{Name, NoMemory};
use std::alloc::Global;
use tree_rules::found;
use tree_trait::{FileSystem, Mount, TreeError};

/// The same file system with an empty folder more, whose path isn't the root.
fn with_folder(alloc: Global, opening: &FileSystem, names: &[Name]) -> Result<FileSystem, NoMemory>
    ensures { IfOk result (λ new. new ≡ after_change opening.now
        (of_name opening.now (reverse names.now) (λ f name. Makes f name (folder_node 0o755 0)))) }
{
    let mut new = copy_of(alloc, opening)?;
    match names {
        [] => Ok(new),
        [front @ .., name] => {
            let node = folder_node(alloc, 0o755, 0);
            place(&mut new, found(opening, front), name.copy(alloc)?, node)?;
            Ok(new)
        }
    }
}

/// The same file system with a folder more, where a mount begins.
fn with_mount(
    alloc: Global,
    opening: &FileSystem,
    names: &[Name],
    capacity: u64,
) -> Result<FileSystem, NoMemory>
    ensures { IfOk result (λ new. new ≡ mounted_system opening.now (reverse names.now) capacity) }
{
    let mut new = with_folder(alloc, opening, names)?;
    new.mounts.push(Mount {
        folder: opening.nodes.len(),
        capacity,
    })?;
    Ok(new)
}

/// The opening with a mount more, unless its folder can't be put.
pub fn mount_at(
    alloc: Global,
    opening: &FileSystem,
    names: &[Name],
    capacity: u64,
) -> Result<FileSystem, TreeError>
    ensures mounted { IfOk result (λ new. new ≡ mounted_system opening.now (reverse names.now) capacity) }
    ensures refusal { IsRefusedBy (put_refusal opening.now (reverse names.now)) result }
{
    match refuse_put(opening, names) {
        Some(e) => Err(e),
        None => match with_mount(alloc, opening, names, capacity) {
            Err(_) => Err(TreeError::Memory),
            Ok(new) => Ok(new),
        },
    }
}
