//! What the reading calls tell.
ghost use Rattle.std.specs.Prelude.{◌≡◌, ◌≤◌, ◌^◌, length, reverse, Some, Ok};
ghost use Rattle.tree_trait.specs.FileSystem.{find, node};
ghost use Rattle.tree_trait.specs.Calls.{Stat, ReadAt};
ghost use Rattle.tree_trait.specs.Change.{found_node};
ghost use Rattle.tree_trait.specs.Answers.{IsMeta, IsRead};
ghost use Rattle.tree_rules.specs.Told.{IsTold};

use crate::lookups::kind_at;
use crate::mounts::{mount_number, mount_of};
use crate::refusals::{refuse_read, refuse_stat};
use crate::walking::found;
use mc_text::{Kind, Name};
use tree_trait::{FileSystem, Meta, TreeError};

/// The facts of what stands at a path.
fn facts(fs: &FileSystem, names: &[Name]) -> Meta
    requires { length fs.now.mounts ≤ 1000 }
    ensures { IsMeta fs.now (reverse names.now) result }
{
    let mount = mount_number(fs.mounts.as_slice(), mount_of(fs, names));
    match fs.nodes.as_slice().get(found(fs, names)) {
        None => Meta {
            kind: Kind::Other,
            size: 0,
            mode: 0,
            mtime: 0,
            mount,
        },
        Some(n) => Meta {
            kind: n.kind,
            size: n.bytes.len() as u64,
            mode: n.mode,
            mtime: n.mtime,
            mount,
        },
    }
}

/// The answer of `stat`.
pub fn read_meta(fs: &FileSystem, names: &[Name]) -> Result<Meta, TreeError>
    requires { length fs.now.mounts ≤ 1000 }
    ensures { IsTold fs.now (Stat (reverse names.now)) result (IsMeta fs.now (reverse names.now)) }
{
    match refuse_stat(fs, names) {
        Some(e) => Err(e),
        None => Ok(facts(fs, names)),
    }
}

/// The bytes of a node.
pub fn bytes_at(fs: &FileSystem, i: usize) -> &[u8]
    ensures { result.now ≡ (node fs.now i).bytes }
{
    match fs.nodes.as_slice().get(i) {
        None => &[],
        Some(n) => n.bytes.as_slice(),
    }
}

/// Copies bytes from an offset on: as many as are there and there is room for.
fn copy_from(bytes: &[u8], offset: u64, into: &mut [u8]) -> usize
    ensures { IsRead bytes.now offset into.old into.new result }
{
    let from = bytes.len().min(offset as usize);
    let rest = &bytes[from..];
    let count = rest.len().min(into.len());
    into[..count].copy_from_slice(&rest[..count]);
    count
}

/// The answer of `read_at`.
pub fn read_bytes(
    fs: &FileSystem,
    names: &[Name],
    offset: u64,
    into: &mut [u8],
) -> Result<usize, TreeError>
    ensures { IsTold fs.now (ReadAt (reverse names.now) offset (length into.old)) result
        (IsRead (node fs.now (found_node fs.now (reverse names.now))).bytes offset into.old into.new) }
{
    match refuse_read(fs, names, offset, into.len()) {
        Some(e) => Err(e),
        None => Ok(copy_from(bytes_at(fs, found(fs, names)), offset, into)),
    }
}
