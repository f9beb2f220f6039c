//! Where a copy stands.
ghost use Rattle.std.specs.Prelude.{◌≡◌, ◌∷◌, [], drop, None, Some, IfNone, IfOk};
ghost use Rattle.std.specs.Prelude.{IfSome, is_some, option_map, true, if◌then◌else◌};
ghost use Rattle.mc_text.specs.Routes.{parent_of};
ghost use Rattle.copy_link.specs.LinkCopying.{has_part};
ghost use Rattle.copy_tree.specs.Standing.{seen_copy};
ghost use Rattle.copy_job.specs.Standing.{at_barrier, barrier_at_end, barrier_in, named_of, part_of};

use copy_folders::{Stack, Stage};
use copy_link::LinkCopy;
use copy_tree::{ItemAtWork, Named, TreeCopy};
use mc_text::{Name, NoMemory, Path};
use std::alloc::Global;

/// A thing by its folder and its name.
#[tactic(auto, using(crate::proofs::Begun::named_so))]
pub(crate) fn named(alloc: Global, path: &Path) -> Result<Named, NoMemory>
    requires held { is_some (parent_of path.now) ≡ true }
    ensures { IfOk result (λ named. named ≡ named_of path.now) }
{
    let Some(folder) = path.parent(alloc)? else {
        unreachable!()
    };
    let Some(name) = last_name(path) else {
        unreachable!()
    };
    let name = name.copy(alloc)?;
    Ok(Named { folder, name })
}

/// The last name of a path.
fn last_name(path: &Path) -> Option<&Name>
    ensures some { IfSome result (λ name. path.now ≡ name.now ∷ drop 1 path.now) }
    ensures none { IfNone result (path.now ≡ []) }
{
    path.names().last()
}

/// Whether nothing can be skipped.
pub(crate) fn is_at_barrier(machine: &TreeCopy) -> bool
    ensures { result ≡ at_barrier (seen_copy machine.now) }
{
    match &machine.item {
        ItemAtWork::Next => is_barred(&machine.stack),
        ItemAtWork::File(copy) => copy.is_at_barrier(),
        ItemAtWork::Link(copy) => copy.is_at_barrier(),
        ItemAtWork::Stays(_) => true,
    }
}

/// The same where nothing is at work.
fn is_barred(stack: &Stack) -> bool
    ensures { result ≡ barrier_in stack.now.levels }
{
    if stack.is_around_dirty() {
        return true;
    }
    match stack.next_name() {
        Some(_) => false,
        None => is_barred_at_end(stack.stage()),
    }
}

/// Whether nothing can be skipped at the end of a folder that is so far.
fn is_barred_at_end(stage: Stage) -> bool
    ensures { result ≡ barrier_at_end stage }
{
    match stage {
        Stage::Close { owed: Some(_) } => false,
        Stage::Close { owed: None } => true,
        Stage::Fill { .. } => true,
        Stage::Make { .. } => true,
        Stage::Done => true,
    }
}

/// The part that stands.
pub(crate) fn part(item: &ItemAtWork) -> Option<&Path>
    ensures { option_map (λ part. part.now) result ≡ part_of item.now }
{
    match item {
        ItemAtWork::Next => None,
        ItemAtWork::File(copy) => copy.part(),
        ItemAtWork::Link(copy) => link_part(copy),
        ItemAtWork::Stays(part) => Some(part),
    }
}

fn link_part(copy: &LinkCopy) -> Option<&Path>
    ensures { option_map (λ part. part.now) result
        ≡ (if has_part copy.now.stage then Some copy.now.part else None) }
{
    if copy.has_part() {
        Some(copy.part())
    } else {
        None
    }
}

/// The part that stands, where the copy is given up.
pub(crate) fn into_part(machine: TreeCopy) -> Option<Path>
    ensures { result ≡ part_of machine.item }
{
    let TreeCopy {
        job: _,
        name: _,
        stage: _,
        item,
        stack: _,
    } = machine;
    match item {
        ItemAtWork::Next => None,
        ItemAtWork::File(copy) => copy.into_part(),
        ItemAtWork::Link(copy) => into_link_part(copy),
        ItemAtWork::Stays(part) => Some(part),
    }
}

fn into_link_part(copy: LinkCopy) -> Option<Path>
    ensures { result ≡ (if has_part copy.stage then Some copy.part else None) }
{
    if copy.has_part() {
        Some(copy.into_part())
    } else {
        None
    }
}
