//! The names that lead to a node.
ghost use Rattle.std.specs.Prelude.{◌≡◌, IfOk, OnOk};
ghost use Rattle.mem_tree.specs.Live.{without_name, if_leading, leading, standing, IsOnce};

use crate::copies::{copy_edit, copy_of};
use mc_text::{Name, NoMemory};
use std::alloc::Global;
use tree_rules::place_of;
use tree_trait::{FileSystem, NameEdit, Seq};

/// Takes a name out. It takes no memory.
fn take_out(names: &mut Seq<NameEdit>, folder: usize, name: &Name)
    ensures { IsOnce names.old → names.new ≡ without_name folder name.now names.old }
{
    match place_of(names.as_slice(), folder, name) {
        None => {}
        Some(k) => {
            let _ = names.remove(k);
        }
    }
}

/// Puts an edit in front, if it leads to a node.
fn add_leading(alloc: Global, names: &mut Seq<NameEdit>, edit: &NameEdit) -> Result<(), NoMemory>
    ensures { OnOk result (names.new ≡ if_leading edit.now names.old) }
{
    if edit.to.is_some() {
        names.push_front(copy_edit(alloc, edit)?)?;
        return Ok(());
    }
    Ok(())
}

/// Of each name its newest edit, if that leads to a node.
fn leading(alloc: Global, edits: &[NameEdit]) -> Result<Seq<NameEdit>, NoMemory>
    ensures { IfOk result (λ names. names ≡ leading edits.now) }
{
    match edits {
        [] => Ok(Seq::new(alloc)),
        [first, rest @ ..] => {
            let mut names = leading(alloc, rest)?;
            take_out(&mut names, first.folder, &first.name);
            add_leading(alloc, &mut names, first)?;
            Ok(names)
        }
    }
}

/// The same file system with the names alone that lead to a node.
pub fn standing_of(alloc: Global, fs: &FileSystem) -> Result<FileSystem, NoMemory>
    ensures { IfOk result (λ stands. stands ≡ standing fs.now) }
{
    let mut stands = copy_of(alloc, fs)?;
    stands.names = leading(alloc, fs.names.as_slice())?;
    Ok(stands)
}
