//! What an ended job left dirty, a folder or a thing that was given a mode, that a job has to sync
//! before its first change.
ghost use Rattle.std.specs.Prelude.{◌≡◌, ◌≤◌, ◌==◌, true, IfSome, IfNone, false};
ghost use Rattle.std.specs.Option.{option_map_or};
ghost use Rattle.mc_text.specs.Routes.{Route};
ghost use Rattle.tree_trait.specs.FileSystem.{node};
ghost use Rattle.tree_trait.specs.Change.{current, found_node};
ghost use Rattle.tree_trait.specs.Answers.{IfKnown};
ghost use Rattle.tree_trait.specs.Refusals.{is_folder};
ghost use Rattle.tree_trait.specs.CrashImages.{Among};
ghost use Rattle.copy_move.specs.Settling.{IsElsewhere, IsGoneForFolder, NoneForFolder};
ghost use Rattle.copy_move.specs.Settling.{NoneOwed, changed_folder, left_folder, moves_folder};
ghost use Rattle.copy_move.specs.MountNumbers.{IsMountOf, LiesApart, LiesOff};

use crate::work::Work;
use job_unsynced::Dirty;
use mc_text::{Kind, Path};
use std::alloc::Global;
use tree_trait::{Tree, TreeError};

/// The first of what is dirty that lies on the mount of a folder in which this work begins, or of one on
/// the way there, or is owed on any, as all is before a folder is moved, as far as the tree can be asked.
/// One at which nothing stands any more was removed.
pub(crate) fn first_owed<'a, T: Tree>(
    dirty: &'a Dirty,
    alloc: Global,
    tree: &mut T,
    work: &Work,
) -> Option<&'a Path>
    ensures owed { IfSome result (λ owed. Among dirty.now owed.now) }
    ensures none { IfNone result (IfKnown (T.contents tree.old) (λ log.
        NoneOwed (current log) work.now dirty.now)) }
    ensures cleared { IfNone result (IfKnown (T.contents tree.old) (λ log.
        NoneForFolder (current log) work.now dirty.now)) }
    ensures same { T.contents tree.new ≡ T.contents tree.old }
    ensures later { T.fault_count tree.old ≤ T.fault_count tree.new }
{
    let mut rest = dirty.folders();
    if rest.is_empty() {
        return None;
    }
    let mount = mount_at(alloc, tree, work.folder());
    while let Some((first, more)) = rest.split_first() {
        if is_owed(alloc, tree, work, first, mount) {
            return Some(first);
        }
        rest = more;
    }
    None
}

/// The number of the mount on which a folder lies; none where the tree doesn't say.
fn mount_at<T: Tree>(alloc: Global, tree: &mut T, folder: &Path) -> Option<u32>
    ensures is { IfSome result (λ mount.
        IfKnown (T.contents tree.old) (λ log. IsMountOf (current log) folder.now mount)) }
    ensures same { T.contents tree.new ≡ T.contents tree.old }
    ensures later { T.fault_count tree.old ≤ T.fault_count tree.new }
{
    match tree.stat(alloc, folder) {
        Ok(meta) => Some(meta.mount),
        Err(_) => None,
    }
}

/// Whether what is dirty may be owed by this work, whose folder lies on this mount, if that is known.
fn is_owed<T: Tree>(
    alloc: Global,
    tree: &mut T,
    work: &Work,
    kept: &Path,
    mount: Option<u32>,
) -> bool
    requires mount { IfSome mount (λ mount.
        IfKnown (T.contents tree.old) (λ log. IsMountOf (current log) (changed_folder work.now) mount)) }
    ensures not { result ≡ false
        → IfKnown (T.contents tree.old) (λ log. IsElsewhere (current log) work.now kept.now) }
    ensures first { result ≡ false
        → IfKnown (T.contents tree.old) (λ log. IsGoneForFolder (current log) work.now kept.now) }
    ensures same { T.contents tree.new ≡ T.contents tree.old }
    ensures later { T.fault_count tree.old ≤ T.fault_count tree.new }
{
    match tree.stat(alloc, kept) {
        Ok(meta) => is_owed_from(alloc, tree, work, kept, meta.mount, mount),
        Err(TreeError::Missing) => false,
        Err(_) => true,
    }
}

/// Whether what is dirty on the mount of this number may be owed: on whatever mount it lies, or on that
/// of the work's folder, or on that of one on the way. Most of it lies on the mount of the folder, and
/// then nothing else is asked.
fn is_owed_from<T: Tree>(
    alloc: Global,
    tree: &mut T,
    work: &Work,
    kept: &Path,
    number: u32,
    mount: Option<u32>,
) -> bool
    requires lies { IfKnown (T.contents tree.old) (λ log. IsMountOf (current log) kept.now number) }
    requires mount { IfSome mount (λ mount.
        IfKnown (T.contents tree.old) (λ log. IsMountOf (current log) (changed_folder work.now) mount)) }
    ensures not { result ≡ false
        → IfKnown (T.contents tree.old) (λ log. IsElsewhere (current log) work.now kept.now) }
    ensures first { result ≡ false
        → IfKnown (T.contents tree.old) (λ log. IsGoneForFolder (current log) work.now kept.now) }
    ensures same { T.contents tree.new ≡ T.contents tree.old }
    ensures later { T.fault_count tree.old ≤ T.fault_count tree.new }
{
    if work.is_owed_anywhere(kept) {
        return true;
    }
    if is_mount(number, mount) {
        return true;
    }
    if may_move_folder(alloc, tree, work) {
        return true;
    }
    is_on_way(alloc, tree, work, number)
}

/// Whether it may be a folder that this work moves.
fn may_move_folder<T: Tree>(alloc: Global, tree: &mut T, work: &Work) -> bool
    ensures not { result ≡ false
        → IfKnown (T.contents tree.old) (λ log. moves_folder (current log) work.now ≡ false) }
    ensures same { T.contents tree.new ≡ T.contents tree.old }
    ensures later { T.fault_count tree.old ≤ T.fault_count tree.new }
{
    match work.moved_thing() {
        Some(source) => may_be_folder(alloc, tree, source),
        None => false,
    }
}

/// Whether a folder may stand there.
fn may_be_folder<T: Tree>(alloc: Global, tree: &mut T, path: &Path) -> bool
    ensures not { result ≡ false → IfKnown (T.contents tree.old) (λ log.
        is_folder (node (current log) (found_node (current log) path.now)) ≡ false) }
    ensures same { T.contents tree.new ≡ T.contents tree.old }
    ensures later { T.fault_count tree.old ≤ T.fault_count tree.new }
{
    match tree.stat(alloc, path) {
        Ok(meta) => meta.kind == Kind::Folder,
        Err(_) => true,
    }
}

/// Whether this may be the mount; where none is known each may be it.
fn is_mount(number: u32, mount: Option<u32>) -> bool
    ensures { result ≡ option_map_or (λ known. number == known) mount true }
{
    match mount {
        Some(known) => number == known,
        None => true,
    }
}

/// Whether the mount of this number, on which the work's folder doesn't lie, may be that of one on the way
/// there, or of the folder that something leaves, or of one on the way to that.
fn is_on_way<T: Tree>(alloc: Global, tree: &mut T, work: &Work, number: u32) -> bool
    ensures not { result ≡ false
        → IfKnown (T.contents tree.old) (λ log. (kept : Route) → IsMountOf (current log) kept number
        → LiesApart (current log) (changed_folder work.now) kept
        → LiesOff (current log) (changed_folder work.now) kept
        × LiesOff (current log) (left_folder work.now) kept) }
    ensures same { T.contents tree.new ≡ T.contents tree.old }
    ensures later { T.fault_count tree.old ≤ T.fault_count tree.new }
{
    if is_above(alloc, tree, work.folder(), number) {
        return true;
    }
    if work.left_folder().same(work.folder()) {
        return false;
    }
    if is_mount(number, mount_at(alloc, tree, work.left_folder())) {
        return true;
    }
    is_above(alloc, tree, work.left_folder(), number)
}

/// Whether the mount of this number, on which a folder doesn't lie, may be that of one on the way to it.
/// Without the memory for the path of one on the way it may be.
fn is_above<T: Tree>(alloc: Global, tree: &mut T, folder: &Path, number: u32) -> bool
    ensures not { result ≡ false
        → IfKnown (T.contents tree.old) (λ log. (kept : Route) → IsMountOf (current log) kept number
        → LiesApart (current log) folder.now kept → LiesOff (current log) folder.now kept) }
    ensures same { T.contents tree.new ≡ T.contents tree.old }
    ensures later { T.fault_count tree.old ≤ T.fault_count tree.new }
{
    let Ok(mut above) = folder.parent(alloc) else {
        return true;
    };
    while let Some(up) = above {
        if is_mount(number, mount_at(alloc, tree, &up)) {
            return true;
        }
        let Ok(next) = up.parent(alloc) else {
            return true;
        };
        above = next;
    }
    false
}
