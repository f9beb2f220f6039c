//! What names lead to, and what stands at a node.
ghost use Rattle.std.specs.Prelude.{◌≡◌, ◌<◌, ◌==◌, ◌&&◌, length, true, false, is_some};
ghost use Rattle.std.specs.Prelude.{IfSome, unwrap_or, None, slice_get, bit_and};
ghost use Rattle.std.specs.List.{list_any};
ghost use Rattle.tree_trait.specs.declared.file_system.NameEdit.{NameEdit};
ghost use Rattle.tree_trait.specs.FileSystem.{lookup, node, is_of, starts_mount};
ghost use Rattle.tree_trait.specs.Refusals.{is_folder, is_file, is_link, lacks, has_entries, holder_in};

use mc_text::{Kind, Name};
use tree_trait::{FileSystem, NameEdit};

/// What a name of a folder leads to: what its newest edit says, which stands first.
pub fn lookup(names: &[NameEdit], folder: usize, name: &Name) -> Option<usize>
    ensures { result ≡ lookup names.now folder name.now }
{
    for e in names {
        if e.folder == folder && e.name.same(name) {
            return e.to;
        }
    }
    None
}

/// The place of the newest edit of a name.
pub fn place_of(names: &[NameEdit], folder: usize, name: &Name) -> Option<usize>
    ensures within { IfSome result (λ k. k < length names.now) }
    ensures edit { IfSome result (λ k. (e : NameEdit) × (slice_get names.now k ≡ Some e)
        × (is_of folder name.now e ≡ true)) }
    ensures none { result ≡ None → list_any (is_of folder name.now) names.now ≡ false }
{
    for (k, e) in names.iter().enumerate() {
        if e.folder == folder && e.name.same(name) {
            return Some(k);
        }
    }
    None
}

/// Whether a name of this folder leads to a node.
pub fn has_entries(fs: &FileSystem, folder: usize) -> bool
    ensures { result ≡ has_entries fs.now folder }
{
    let names = fs.names.as_slice();
    names.iter().any(|e| e.folder == folder && lookup(names, folder, &e.name).is_some())
}

/// The folder whose name leads to a node.
pub fn holder_of(names: &[NameEdit], i: usize) -> Option<usize>
    ensures { result ≡ holder_in names.now names.now i }
{
    for e in names {
        let to = lookup(names, e.folder, &e.name);
        if to.unwrap_or(0) == i && to.is_some() {
            return Some(e.folder);
        }
    }
    None
}

/// Whether a mount begins at a node.
pub fn starts_mount(fs: &FileSystem, i: usize) -> bool
    ensures { result ≡ starts_mount fs.now i }
{
    fs.mounts.as_slice().iter().any(|m| m.folder == i)
}

/// The kind of a node.
pub fn kind_at(fs: &FileSystem, i: usize) -> Kind
    ensures { result ≡ (node fs.now i).kind }
{
    match fs.nodes.as_slice().get(i) {
        None => Kind::Other,
        Some(n) => n.kind,
    }
}

/// The mode of a node.
fn mode_at(fs: &FileSystem, i: usize) -> u16
    ensures { result ≡ (node fs.now i).mode }
{
    match fs.nodes.as_slice().get(i) {
        None => 0,
        Some(n) => n.mode,
    }
}

/// How many names of a folder are not UTF-8.
pub fn unnamed_at(fs: &FileSystem, i: usize) -> u64
    ensures { result ≡ (node fs.now i).unnamed }
{
    match fs.nodes.as_slice().get(i) {
        None => 0,
        Some(n) => n.unnamed,
    }
}

/// How many bytes a node has.
pub fn size_at(fs: &FileSystem, i: usize) -> usize
    ensures { result ≡ length (node fs.now i).bytes }
{
    match fs.nodes.as_slice().get(i) {
        None => 0,
        Some(n) => n.bytes.len(),
    }
}

/// Whether a node is a folder.
pub fn folder_at(fs: &FileSystem, i: usize) -> bool
    ensures { result ≡ is_folder (node fs.now i) }
{
    match kind_at(fs, i) {
        Kind::Folder => true,
        Kind::File => false,
        Kind::Link => false,
        Kind::Other => false,
    }
}

/// Whether a node is a file.
pub fn file_at(fs: &FileSystem, i: usize) -> bool
    ensures { result ≡ is_file (node fs.now i) }
{
    match kind_at(fs, i) {
        Kind::File => true,
        Kind::Folder => false,
        Kind::Link => false,
        Kind::Other => false,
    }
}

/// Whether a node is a link.
pub fn link_at(fs: &FileSystem, i: usize) -> bool
    ensures { result ≡ is_link (node fs.now i) }
{
    match kind_at(fs, i) {
        Kind::Link => true,
        Kind::File => false,
        Kind::Folder => false,
        Kind::Other => false,
    }
}

/// Whether the mode of a node lacks this bit.
pub fn lacks_at(fs: &FileSystem, bit: u16, i: usize) -> bool
    ensures { result ≡ lacks bit (node fs.now i) }
{
    mode_at(fs, i) & bit == 0
}
