//! What is asked of the nearest of the folders around the one that is worked, and its sync, where it stands.
ghost use Rattle.std.specs.Prelude.{◌≡◌, false, true};
ghost use Rattle.tree_walk.specs.Places.{is_empty};
ghost use Rattle.copy_folders.specs.Levels.{NearestSyncs, is_around_dirty, target_around};

use crate::level::Level;
use crate::stage::FolderStep;
use mc_text::Path;
use std::alloc::Global;
use tree_trait::Tree;
use tree_walk::Around;

/// Whether the nearest is dirty.
pub(crate) fn is_nearest_dirty(around: &Around<Level>) -> bool
    ensures { result ≡ is_around_dirty around.now.nearest }
{
    match around.nearest() {
        Some(outer) => outer.copy.is_dirty(),
        None => false,
    }
}

/// The target of the nearest.
pub(crate) fn target_of_nearest(around: &Around<Level>) -> &Path
    requires outer { is_empty around.now.nearest ≡ false }
    ensures { result.now ≡ target_around around.now.nearest }
{
    let Some(outer) = around.nearest() else {
        unreachable!();
    };
    outer.copy.target()
}

/// Syncs the nearest.
pub(crate) fn sync_nearest<T: Tree>(
    around: &mut Around<Level>,
    alloc: Global,
    tree: &mut T,
) -> FolderStep
    requires dirty { is_around_dirty around.old.nearest ≡ true }
    ensures syncs { NearestSyncs around.old.nearest around.new.nearest result.did result.calls
        (T.contents tree.old) (T.contents tree.new) (T.fault_count tree.old) (T.fault_count tree.new) }
{
    let Some(outer) = around.take() else {
        unreachable!();
    };
    let mut outer = outer;
    let stepped = outer.copy.sync(alloc, tree);
    around.add(outer);
    stepped
}
