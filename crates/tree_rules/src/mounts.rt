//! On which mount a path lies, and how full the mount is.
ghost use Rattle.std.specs.Prelude.{◌≡◌, ◌≤◌, ◌+◌, ◌^◌, ◌&&◌, nat_lt, length, suc};
ghost use Rattle.std.specs.Prelude.{reverse, MatchOption, Some, if◌then◌else◌};
ghost use Rattle.tree_trait.specs.FileSystem.{node};
ghost use Rattle.tree_trait.specs.Refusals.{is_file, mount_here, mount_of, same_mount};
ghost use Rattle.tree_trait.specs.Refusals.{holder, lies_on, used_by, capacity_of, no_room};
ghost use Rattle.tree_trait.specs.Answers.{mount_number};
ghost use Rattle.tree_rules.specs.Spot.{place_of};

use crate::lookups::{file_at, holder_of, lookup, size_at, starts_mount};
use crate::walking::{Spot, find, thing_of};
use mc_text::Name;
use tree_trait::{FileSystem, Mount};

/// The folder of the mount on which a path lies.
pub fn mount_of(fs: &FileSystem, names: &[Name]) -> usize
    ensures { result ≡ mount_of fs.now (reverse names.now) }
{
    match names {
        [] => 0,
        [front @ .., name] => {
            let above = mount_of(fs, front);
            match find(fs, front) {
                None => above,
                Some(folder) => match lookup(fs.names.as_slice(), folder, name) {
                    None => above,
                    Some(i) => nearer(fs, i, above),
                },
            }
        }
    }
}

/// A node, if a mount begins there, and else the folder of the mount above it.
fn nearer(fs: &FileSystem, i: usize, above: usize) -> usize
    ensures { result ≡ mount_here fs.now (Some i) above }
{
    if starts_mount(fs, i) { i } else { above }
}

/// The folder of the mount on which the folder lies that holds what stands at a path.
fn mount_of_holder(fs: &FileSystem, names: &[Name]) -> usize
    ensures { result ≡ mount_of fs.now (holder (reverse names.now)) }
{
    match names {
        [] => 0,
        [front @ .., name] => {
            let _name = name;
            mount_of(fs, front)
        }
    }
}

/// Whether the folders that hold these two lie on one mount.
pub fn same_mount(fs: &FileSystem, from: &[Name], to: &[Name]) -> bool
    ensures { result ≡ same_mount fs.now (reverse from.now) (reverse to.now) }
{
    mount_of_holder(fs, from) == mount_of_holder(fs, to)
}

/// Whether a node lies on the mount of this folder, at most so many folders below it.
fn lies_on(fs: &FileSystem, height: usize, mount: usize, i: usize) -> bool
    ensures { result ≡ lies_on (suc height) fs.now mount i }
{
    if starts_mount(fs, i) {
        return i == mount;
    }
    match holder_of(fs.names.as_slice(), i) {
        None => false,
        Some(folder) => height > 0 && lies_on(fs, height - 1, mount, folder),
    }
}

/// How many bytes the first nodes have that are files on a mount, if a `u64` holds their number.
pub fn used_by(fs: &FileSystem, count: usize, mount: usize) -> Option<u64>
    ensures { MatchOption result (2 ^ 64 ≤ used_by count fs.now mount)
        (λ bytes. bytes ≡ used_by count fs.now mount) }
{
    if count == 0 {
        return Some(0);
    }
    let i = count - 1;
    match used_by(fs, i, mount) {
        None => None,
        Some(used) => used.checked_add(own_bytes(fs, i, mount)),
    }
}

/// How many bytes a node takes of a mount.
fn own_bytes(fs: &FileSystem, i: usize, mount: usize) -> u64
    ensures { result ≡ (if is_file (node fs.now i) && lies_on (suc (length fs.now.nodes)) fs.now mount i
        then length (node fs.now i).bytes else 0) }
{
    if file_at(fs, i) && lies_on(fs, fs.nodes.len(), mount, i) {
        size_at(fs, i) as u64
    } else {
        0
    }
}

/// How many bytes the files of a mount may have.
fn capacity_of(mounts: &[Mount], folder: usize) -> u64
    ensures { result ≡ capacity_of mounts.now folder }
{
    match mounts {
        [] => 0,
        [first, rest @ ..] => {
            if first.folder == folder {
                first.capacity
            } else {
                capacity_of(rest, folder)
            }
        }
    }
}

/// Whether a mount can't hold so many bytes besides those that its files have.
pub fn is_full(fs: &FileSystem, mount: usize, more: u64) -> bool
    ensures { result ≡ nat_lt (capacity_of fs.now.mounts mount)
        (used_by (length fs.now.nodes) fs.now mount + more) }
{
    let capacity = capacity_of(fs.mounts.as_slice(), mount);
    match used_by(fs, fs.nodes.len(), mount) {
        None => true,
        Some(used) => match used.checked_add(more) {
            None => true,
            Some(total) => capacity < total,
        },
    }
}

/// Whether a mount can't hold what is to be written at a path.
pub fn no_room(fs: &FileSystem, names: &[Name], spot: &Spot, offset: u64, count: usize) -> bool
    requires { offset + count ≤ 2 ^ 63 }
    ensures { result ≡ no_room fs.now (reverse names.now) (place_of spot.now) offset count }
{
    let size = size_at(fs, thing_of(fs, spot)) as u64;
    let end = offset + count as u64;
    is_full(fs, mount_of(fs, names), end.saturating_sub(size))
}

/// The number of the mount whose folder this is.
pub fn mount_number(mounts: &[Mount], folder: usize) -> u32
    requires { length mounts.now ≤ 1000 }
    ensures number { result ≡ mount_number mounts.now folder }
    ensures bound { result ≤ length mounts.now }
{
    match mounts {
        [] => 0,
        [first, rest @ ..] => {
            if first.folder == folder {
                0
            } else {
                mount_number(rest, folder) + 1
            }
        }
    }
}
