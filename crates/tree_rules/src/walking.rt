//! Walks from the root.
ghost use Rattle.std.specs.Prelude.{◌≡◌, ◌∷◌, reverse, length, Ok, Err, MatchResult, unwrap_or};
ghost use Rattle.tree_trait.specs.FileSystem.{find};
ghost use Rattle.tree_trait.specs.Change.{found_node};
ghost use Rattle.tree_trait.specs.Refusals.{step, last_step, reached_node, walk};
ghost use Rattle.tree_rules.specs.Spot.{place_of};

use crate::lookups::{folder_at, lacks_at, lookup};
use mc_text::Name;
use tree_trait::{FileSystem, TreeError};

/// Where a walk ends: the folder that holds the last name, and what the name leads to.
#[derive(Clone, Copy)]
pub struct Spot {
    pub holder: Option<usize>,
    pub there: Option<usize>,
}

/// The node that a name leads to in a folder.
fn step(fs: &FileSystem, folder: usize, name: &Name) -> Result<usize, TreeError>
    ensures { result ≡ step fs.now name.now folder }
{
    if !folder_at(fs, folder) {
        return Err(TreeError::NotFolder);
    }
    if lacks_at(fs, 0o100, folder) {
        return Err(TreeError::Denied);
    }
    match lookup(fs.names.as_slice(), folder, name) {
        None => Err(TreeError::Missing),
        Some(i) => Ok(i),
    }
}

/// The node that a path leads to, whose names stand here from the root on.
fn reach(fs: &FileSystem, names: &[Name]) -> Result<usize, TreeError>
    ensures { result ≡ reached_node fs.now (reverse names.now) }
{
    match names {
        [] => Ok(0),
        [front @ .., name] => match reach(fs, front) {
            Err(e) => Err(e),
            Ok(at) => step(fs, at, name),
        },
    }
}

/// The last step of a walk.
fn last(fs: &FileSystem, folder: usize, name: &Name) -> Result<Spot, TreeError>
    ensures { MatchResult result
        (λ spot. last_step fs.now name.now folder ≡ Ok (place_of spot))
        (λ e. last_step fs.now name.now folder ≡ Err e) }
{
    if !folder_at(fs, folder) {
        return Err(TreeError::NotFolder);
    }
    let closed = lacks_at(fs, 0o100, folder);
    if closed {
        return Err(TreeError::Denied);
    }
    Ok(Spot {
        holder: Some(folder),
        there: lookup(fs.names.as_slice(), folder, name),
    })
}

/// Where the walk along a path ends, whose names stand here from the root on: its last name may lead nowhere.
pub fn walk(fs: &FileSystem, names: &[Name]) -> Result<Spot, TreeError>
    ensures { MatchResult result
        (λ spot. walk fs.now (reverse names.now) ≡ Ok (place_of spot))
        (λ e. walk fs.now (reverse names.now) ≡ Err e) }
{
    match names {
        [] => Ok(Spot {
            holder: None,
            there: Some(0),
        }),
        [front @ .., name] => match reach(fs, front) {
            Err(e) => Err(e),
            Ok(at) => last(fs, at, name),
        },
    }
}

/// The node that a path leads to, whatever the modes.
pub fn find(fs: &FileSystem, names: &[Name]) -> Option<usize>
    ensures { result ≡ find fs.now (reverse names.now) }
{
    match names {
        [] => Some(0),
        [front @ .., name] => match find(fs, front) {
            None => None,
            Some(folder) => lookup(fs.names.as_slice(), folder, name),
        },
    }
}

/// The node that a name leads to in the folder of a path.
pub fn find_in(fs: &FileSystem, front: &[Name], name: &Name) -> Option<usize>
    ensures { result ≡ find fs.now (name.now ∷ reverse front.now) }
{
    match find(fs, front) {
        None => None,
        Some(folder) => lookup(fs.names.as_slice(), folder, name),
    }
}

/// The number of the node that a name leads to in the folder of a path, and 0 where it leads nowhere.
pub fn found_in(fs: &FileSystem, front: &[Name], name: &Name) -> usize
    ensures { result ≡ found_node fs.now (name.now ∷ reverse front.now) }
{
    find_in(fs, front, name).unwrap_or(0)
}

/// The number of the node that a path leads to, and 0 where it leads nowhere.
pub fn found(fs: &FileSystem, names: &[Name]) -> usize
    ensures { result ≡ found_node fs.now (reverse names.now) }
{
    find(fs, names).unwrap_or(0)
}

/// The number of what stands at a spot. Where nothing does, no node has it.
pub fn thing_of(fs: &FileSystem, spot: &Spot) -> usize
    ensures { result ≡ unwrap_or spot.now.there (length fs.now.nodes) }
{
    spot.there.unwrap_or(fs.nodes.len())
}

/// The number of the folder that holds a spot. Where none does, no node has it.
pub fn folder_of(fs: &FileSystem, spot: &Spot) -> usize
    ensures { result ≡ unwrap_or spot.now.holder (length fs.now.nodes) }
{
    spot.holder.unwrap_or(fs.nodes.len())
}
