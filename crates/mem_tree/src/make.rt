//! What the opening of a tree in memory is made of.
ghost use Rattle.std.specs.Prelude.{◌≡◌, ◌∷◌, [], Ok, IfOk, OnOk, OnErr, ◌<◌, ◌-◌};
ghost use Rattle.std.specs.Prelude.{◌&&◌, is_none, drop, take, length, reverse};
ghost use Rattle.tree_trait.specs.Change.{Makes, after_change, found_node, of_name};
ghost use Rattle.tree_trait.specs.Refusals.{reached_node, step};
ghost use Rattle.mem_tree.specs.Held.{fresh, folder_node, file_node, other_node, IsKept};
ghost use Rattle.mem_tree.specs.Sound.{FitsNode};
ghost use Rattle.mem_tree.specs.Puts.{unlocked_system, put_refusal, is_full, IsRefusedBy};

use crate::copies::copy_node;
use crate::perform::place;
use mc_text::{Kind, Name, NoMemory};
use std::alloc::Global;
use tree_rules::{folder_at, is_full, lookup, mount_of};
use tree_trait::{FileSystem, Mount, NameEdit, Node, Seq, TreeError};

/// A root alone.
pub fn make_fresh(alloc: Global) -> Result<FileSystem, NoMemory>
    ensures { IfOk result (λ s. s ≡ fresh) }
{
    let mut nodes = Seq::new(alloc);
    nodes.push(folder_node(alloc, 0o755, 0))?;
    let mut mounts = Seq::new(alloc);
    mounts.push(Mount {
        folder: 0,
        capacity: u64::MAX,
    })?;
    Ok(FileSystem {
        nodes,
        names: Seq::new(alloc),
        mounts,
    })
}

/// A folder, with how many names in it are not UTF-8.
pub fn folder_node(alloc: Global, mode: u16, unnamed: u64) -> Node
    ensures { result ≡ folder_node mode unnamed }
{
    Node {
        kind: Kind::Folder,
        bytes: Seq::new(alloc),
        mode,
        mtime: 0,
        unnamed,
    }
}

/// A file with these bytes.
pub fn file_node(alloc: Global, mode: u16, mtime: i64, bytes: &[u8]) -> Result<Node, NoMemory>
    ensures { IfOk result (λ node. node ≡ file_node mode mtime bytes.now) }
{
    Ok(Node {
        kind: Kind::File,
        bytes: Seq::from_slice(alloc, bytes)?,
        mode,
        mtime,
        unnamed: 0,
    })
}

/// A thing that is neither file, folder nor link.
pub fn other_node(alloc: Global) -> Node
    ensures { result ≡ other_node }
{
    Node {
        kind: Kind::Other,
        bytes: Seq::new(alloc),
        mode: 0,
        mtime: 0,
        unnamed: 0,
    }
}

/// The node that a path leads to, where each mode permits all.
fn reach(opening: &FileSystem, names: &[Name]) -> Result<usize, TreeError>
    ensures { result ≡ reached_node (unlocked_system opening.now) (reverse names.now) }
{
    match names {
        [] => Ok(0),
        [front @ .., name] => match reach(opening, front) {
            Err(e) => Err(e),
            Ok(folder) => step(opening, folder, name),
        },
    }
}

/// The node that a name leads to in a folder, where each mode permits all.
fn step(opening: &FileSystem, folder: usize, name: &Name) -> Result<usize, TreeError>
    ensures { result ≡ step (unlocked_system opening.now) name.now folder }
{
    if !folder_at(opening, folder) {
        return Err(TreeError::NotFolder);
    }
    match lookup(opening.names.as_slice(), folder, name) {
        None => Err(TreeError::Missing),
        Some(i) => Ok(i),
    }
}

/// What keeps a thing from being put at a path.
pub fn refuse_put(opening: &FileSystem, names: &[Name]) -> Option<TreeError>
    ensures { result ≡ put_refusal opening.now (reverse names.now) }
{
    match names {
        [] => Some(TreeError::Exists),
        [front @ .., name] => match reach(opening, front) {
            Err(e) => Some(e),
            Ok(folder) => refuse_in(opening, front, folder, name),
        },
    }
}

/// What keeps a thing from being put under a name of a folder, to which `front` leads.
fn refuse_in(opening: &FileSystem, front: &[Name], folder: usize, name: &Name) -> Option<TreeError>
    requires { reached_node (unlocked_system opening.now) (reverse front.now) ≡ Ok folder }
    ensures { result ≡ put_refusal opening.now (name.now ∷ reverse front.now) }
{
    let _ = front;
    if !folder_at(opening, folder) {
        return Some(TreeError::NotFolder);
    }
    if lookup(opening.names.as_slice(), folder, name).is_some() {
        return Some(TreeError::Exists);
    }
    None
}

/// Only the mount's room keeps a file of so many bytes from being put at a path.
pub fn is_full_for(opening: &FileSystem, names: &[Name], count: usize) -> bool
    ensures { result ≡ (is_none (put_refusal opening.now (reverse names.now))
        && is_full opening.now (reverse names.now) count) }
{
    refuse_put(opening, names).is_none() && is_full(opening, mount_of(opening, names), count as u64)
}

/// Takes back the newest node and its name. It takes no memory.
fn take_back(fs: &mut FileSystem)
    requires { 0 < length fs.old.names }
    ensures names { fs.new.names ≡ drop 1 fs.old.names }
    ensures nodes { fs.new.nodes ≡ take (length fs.old.nodes - 1) fs.old.nodes }
    ensures mounts { fs.new.mounts ≡ fs.old.mounts }
{
    let _ = fs.names.remove(0);
    fs.nodes.pop();
}

/// Makes a node under a name in both of two file systems, or in none.
fn place_both(
    alloc: Global,
    opening: &mut FileSystem,
    stands: &mut FileSystem,
    folder: usize,
    name: &Name,
    node: Node,
) -> Result<(), NoMemory>
    ensures made { OnOk result (opening.new ≡ after_change opening.old (Makes folder name.now node)) }
    ensures stands { OnOk result (stands.new ≡ after_change stands.old (Makes folder name.now node)) }
    ensures same { OnErr result (opening.new ≡ opening.old) }
    ensures same_stands { OnErr result (stands.new ≡ stands.old) }
{
    let mine = name.copy(alloc)?;
    let other = name.copy(alloc)?;
    let copy = copy_node(alloc, &node)?;
    place(stands, folder, mine, copy)?;
    match place(opening, folder, other, node) {
        Ok(()) => Ok(()),
        Err(_) => {
            take_back(stands);
            Err(NoMemory)
        }
    }
}

/// Makes a node at a path in both of two file systems, if nothing stands there.
pub fn put_node(
    alloc: Global,
    opening: &mut FileSystem,
    stands: &mut FileSystem,
    names: &[Name],
    node: Node,
) -> Result<(), TreeError>
    requires kept { IsKept opening.old [] stands.old }
    requires fits { FitsNode node }
    ensures made { OnOk result (opening.new
        ≡ after_change opening.old (of_name opening.old (reverse names.now) (λ f name. Makes f name node))) }
    ensures same { OnErr result (opening.new ≡ opening.old) }
    ensures kept { IsKept opening.new [] stands.new }
    ensures refusal { IsRefusedBy (put_refusal opening.old (reverse names.now)) result }
{
    match names {
        [] => Err(TreeError::Exists),
        [front @ .., name] => match reach(opening, front) {
            Err(e) => Err(e),
            Ok(folder) => put_in(alloc, opening, stands, front, folder, name, node),
        },
    }
}

/// Makes a node under a name of a folder, if nothing stands there. `front` leads to the folder.
fn put_in(
    alloc: Global,
    opening: &mut FileSystem,
    stands: &mut FileSystem,
    front: &[Name],
    folder: usize,
    name: &Name,
    node: Node,
) -> Result<(), TreeError>
    requires at { reached_node (unlocked_system opening.old) (reverse front.now) ≡ Ok folder }
    requires kept { IsKept opening.old [] stands.old }
    requires fits { FitsNode node }
    ensures made { OnOk result (opening.new
        ≡ after_change opening.old (Makes (found_node opening.old (reverse front.now)) name.now node)) }
    ensures same { OnErr result (opening.new ≡ opening.old) }
    ensures refusal { IsRefusedBy (put_refusal opening.old (name.now ∷ reverse front.now)) result }
    ensures kept { IsKept opening.new [] stands.new }
{
    if !folder_at(opening, folder) {
        return Err(TreeError::NotFolder);
    }
    if lookup(opening.names.as_slice(), folder, name).is_some() {
        return Err(TreeError::Exists);
    }
    match place_both(alloc, opening, stands, folder, name, node) {
        Err(_) => Err(TreeError::Memory),
        Ok(()) => Ok(()),
    }
}
