//! What `list` tells.
ghost use Rattle.std.specs.Prelude.{◌≡◌, ◌≤◌, length, insert, if◌then◌else◌, reverse, IfOk, OnOk};
ghost use Rattle.tree_trait.specs.Calls.{ListFolder};
ghost use Rattle.tree_trait.specs.Change.{found_node};
ghost use Rattle.tree_trait.specs.Answers.{IsAscending, IsListing};
ghost use Rattle.tree_rules.specs.Told.{IsTold};
ghost use Rattle.tree_rules.specs.Listed.{with_name, gathered_names};

use crate::lookups::{lookup, unnamed_at};
use crate::refusals::refuse_list;
use crate::walking::found;
use mc_text::{Name, Names, NoMemory};
use std::alloc::Global;
use std::cmp::Ordering;
use tree_trait::{Children, FileSystem, NameEdit, TreeError};

/// Where a name goes in names in order, and whether it is there.
fn place_among(names: &[Name], name: &Name) -> (usize, bool)
    ensures within { result.0 ≤ length names.now }
    ensures place { with_name name.now names.now
        ≡ (if result.1 then names.now else insert names.now result.0 name.now) }
{
    match names {
        [] => (0, false),
        [first, rest @ ..] => match name.order(first) {
            Ordering::Less => (0, false),
            Ordering::Equal => (0, true),
            Ordering::Greater => {
                let (at, there) = place_among(rest, name);
                (at + 1, there)
            }
        },
    }
}

/// Puts a name among names in order, unless it is there.
fn add_name(alloc: Global, names: &mut Vec<Name>, name: &Name) -> Result<(), NoMemory>
    ensures { OnOk result (names.new.items ≡ with_name name.now names.old.items) }
{
    let (at, there) = place_among(names.as_slice(), name);
    if there {
        return Ok(());
    }
    names.insert(at, name.copy(alloc)?)?;
    Ok(())
}

/// The names of a folder that lead to a node.
fn gather(
    alloc: Global,
    fs: &FileSystem,
    folder: usize,
    edits: &[NameEdit],
) -> Result<Vec<Name>, NoMemory>
    ensures { IfOk result (λ names. names.items ≡ gathered_names fs.now folder edits.now) }
{
    match edits {
        [] => Ok(Vec::new(alloc)),
        [first, rest @ ..] => {
            let mut names = gather(alloc, fs, folder, rest)?;
            if first.folder == folder
                && lookup(fs.names.as_slice(), folder, &first.name).is_some()
            {
                add_name(alloc, &mut names, &first.name)?;
            }
            Ok(names)
        }
    }
}

/// The children of a folder.
fn children_of(alloc: Global, fs: &FileSystem, i: usize) -> Result<Children, NoMemory>
    ensures listing { IfOk result (IsListing fs.now i) }
    ensures ascending { IfOk result (λ children. IsAscending children.names) }
{
    Ok(Children {
        names: Names(gather(alloc, fs, i, fs.names.as_slice())?),
        unnamed: unnamed_at(fs, i),
    })
}

/// The answer of `list`.
pub fn read_children(alloc: Global, fs: &FileSystem, names: &[Name]) -> Result<Children, TreeError>
    ensures answer { IsTold fs.now (ListFolder (reverse names.now)) result
        (IsListing fs.now (found_node fs.now (reverse names.now))) }
    ensures ascending { IfOk result (λ children. IsAscending children.names) }
{
    match refuse_list(fs, names) {
        Some(e) => Err(e),
        None => match children_of(alloc, fs, found(fs, names)) {
            Err(_) => Err(TreeError::Memory),
            Ok(children) => Ok(children),
        },
    }
}
