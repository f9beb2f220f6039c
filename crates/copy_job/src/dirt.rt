//! What a step makes of the dirty folders.
ghost use Rattle.std.specs.Prelude.{◌≡◌};
ghost use Rattle.copy_tree.specs.Standing.{seen_copy};
ghost use Rattle.copy_job.specs.Marks.{brings_made as brings, is_left_dirty as leaves_dirty};

use copy_tree::{ItemAtWork, TreeCopy};
use job_reports::Did;

/// Whether the next call is the sync of the folder around, so that the one that is worked, which
/// was made, is on the disk.
pub(crate) fn brings_made(machine: &TreeCopy) -> bool
    ensures { result ≡ brings (seen_copy machine.now) }
{
    match &machine.item {
        ItemAtWork::Next => machine.stack.is_around_dirty(),
        ItemAtWork::File(_) => false,
        ItemAtWork::Link(_) => false,
        ItemAtWork::Stays(_) => false,
    }
}

/// Whether the folder that a step worked is dirty after it.
pub(crate) fn is_left_dirty(machine: &TreeCopy, did: &Did) -> bool
    ensures { result ≡ leaves_dirty did.now (seen_copy machine.now) }
{
    match did {
        Did::Made(_) => true,
        _ => machine.is_dirty(),
    }
}
