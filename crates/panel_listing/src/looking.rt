//! A look at one child of a folder.
ghost use Rattle.std.specs.Prelude.{◌≡◌, ◌⊎◌, Some, IfOk, IfErr};
ghost use Rattle.tree_trait.specs.Change.{current};
ghost use Rattle.tree_trait.specs.Answers.{IfKnown, HasCause, count_after};
ghost use Rattle.resolving.specs.declared.walking.Wanted.TheVariants.{AnyThing};
ghost use Rattle.resolving.specs.Resolution.{resolved_path};
ghost use Rattle.panel_listing.specs.Items.{child_item, child_seen, item_of, unseen_item};
ghost use Rattle.panel_listing.specs.Items.{link_of, link_to, seen_at, target_seen};

use crate::item::{Item, LinkKind};
use mc_text::{Kind, Name, Path, PathError};
use resolving::{ResolveError, Wanted, resolve};
use std::alloc::Global;
use tree_trait::{ReadTree, TreeError};

/// What a look at a path shows.
#[derive(Clone, Copy, Debug)]
pub struct Seen {
    pub kind: Kind,
    pub size: u64,
    pub mode: u16,
    pub mtime: i64,
}

/// Looks at what stands under a name of a folder. Where the look is refused, the item says no more than the
/// name; only a fault and want of memory are errors.
pub fn look_at_child<T: ReadTree>(
    alloc: Global,
    tree: &mut T,
    folder: &Path,
    name: Name,
) -> Result<Item, TreeError>
    ensures answer { IfKnown (T.contents tree.old) (λ log.
        IfOk result (λ item. item ≡ child_item (current log) folder.now name)) }
    ensures named { IfOk result (λ item. item.name ≡ name) }
    ensures refused { IfErr result (λ e. (e ≡ TreeError.Memory) ⊎ (e ≡ TreeError.Fault)) }
    ensures same { T.contents tree.new ≡ T.contents tree.old }
    ensures cause { HasCause TreeError.Fault (T.fault_count tree.old) (T.fault_count tree.new) result }
    ensures counts { T.fault_count tree.new ≡ count_after (T.fault_count tree.old) result }
{
    match child_seen(alloc, tree, folder, &name)? {
        None => Ok(unseen(name)),
        Some(seen) => {
            let link = link_of(alloc, tree, folder, &name, seen.kind)?;
            Ok(item_of(name, seen, link))
        }
    }
}

/// What a look at a folder's child shows; nothing where it is refused, or the child's path is too long.
fn child_seen<T: ReadTree>(
    alloc: Global,
    tree: &mut T,
    folder: &Path,
    name: &Name,
) -> Result<Option<Seen>, TreeError>
    ensures answer { IfKnown (T.contents tree.old) (λ log.
        IfOk result (λ seen. seen ≡ child_seen (current log) folder.now name.now)) }
    ensures refused { IfErr result (λ e. (e ≡ TreeError.Memory) ⊎ (e ≡ TreeError.Fault)) }
    ensures same { T.contents tree.new ≡ T.contents tree.old }
    ensures cause { HasCause TreeError.Fault (T.fault_count tree.old) (T.fault_count tree.new) result }
    ensures counts { T.fault_count tree.new ≡ count_after (T.fault_count tree.old) result }
{
    match folder.join(alloc, name) {
        Ok(path) => seen_at(alloc, tree, &path),
        Err(PathError::Memory) => Err(TreeError::Memory),
        Err(_) => Ok(None),
    }
}

/// What a look at a path shows; nothing where it is refused.
fn seen_at<T: ReadTree>(alloc: Global, tree: &mut T, path: &Path) -> Result<Option<Seen>, TreeError>
    ensures answer { IfKnown (T.contents tree.old) (λ log.
        IfOk result (λ seen. seen ≡ seen_at (current log) path.now)) }
    ensures refused { IfErr result (λ e. (e ≡ TreeError.Memory) ⊎ (e ≡ TreeError.Fault)) }
    ensures same { T.contents tree.new ≡ T.contents tree.old }
    ensures cause { HasCause TreeError.Fault (T.fault_count tree.old) (T.fault_count tree.new) result }
    ensures counts { T.fault_count tree.new ≡ count_after (T.fault_count tree.old) result }
{
    match tree.stat(alloc, path) {
        Ok(meta) => Ok(Some(Seen {
            kind: meta.kind,
            size: meta.size,
            mode: meta.mode,
            mtime: meta.mtime,
        })),
        Err(TreeError::Fault) => Err(TreeError::Fault),
        Err(TreeError::Memory) => Err(TreeError::Memory),
        Err(_) => Ok(None),
    }
}

/// The item of a child that was looked at.
fn item_of(name: Name, seen: Seen, link: LinkKind) -> Item
    ensures { result ≡ item_of name (λ _. link) (Some seen) }
{
    Item {
        name,
        kind: seen.kind,
        link,
        size: seen.size,
        mode: seen.mode,
        mtime: seen.mtime,
    }
}

/// The item of a child that can't be looked at.
fn unseen(name: Name) -> Item
    ensures { result ≡ unseen_item name }
{
    Item {
        name,
        kind: Kind::Other,
        link: LinkKind::NotLink,
        size: 0,
        mode: 0,
        mtime: 0,
    }
}

/// Where a thing of this kind leads, that stands under a name of a folder.
fn link_of<T: ReadTree>(
    alloc: Global,
    tree: &mut T,
    folder: &Path,
    name: &Name,
    kind: Kind,
) -> Result<LinkKind, TreeError>
    ensures answer { IfKnown (T.contents tree.old) (λ log.
        IfOk result (λ link. link ≡ link_of (current log) folder.now name.now kind)) }
    ensures refused { IfErr result (λ e. (e ≡ TreeError.Memory) ⊎ (e ≡ TreeError.Fault)) }
    ensures same { T.contents tree.new ≡ T.contents tree.old }
    ensures cause { HasCause TreeError.Fault (T.fault_count tree.old) (T.fault_count tree.new) result }
    ensures counts { T.fault_count tree.new ≡ count_after (T.fault_count tree.old) result }
{
    match kind {
        Kind::Link => follow(alloc, tree, folder, name),
        Kind::File | Kind::Folder | Kind::Other => Ok(LinkKind::NotLink),
    }
}

/// Where a link leads.
fn follow<T: ReadTree>(
    alloc: Global,
    tree: &mut T,
    folder: &Path,
    name: &Name,
) -> Result<LinkKind, TreeError>
    ensures answer { IfKnown (T.contents tree.old) (λ log. IfOk result (λ link.
        link
        ≡ link_to (target_seen (current log) (resolved_path (current log) AnyThing folder.now name.now)))) }
    ensures refused { IfErr result (λ e. (e ≡ TreeError.Memory) ⊎ (e ≡ TreeError.Fault)) }
    ensures same { T.contents tree.new ≡ T.contents tree.old }
    ensures cause { HasCause TreeError.Fault (T.fault_count tree.old) (T.fault_count tree.new) result }
    ensures counts { T.fault_count tree.new ≡ count_after (T.fault_count tree.old) result }
{
    match resolve(alloc, tree, Wanted::AnyThing, folder, name.text()) {
        Ok(target) => Ok(link_to(seen_at(alloc, tree, &target)?)),
        Err(ResolveError::Fault) => Err(TreeError::Fault),
        Err(ResolveError::Memory) => Err(TreeError::Memory),
        Err(_) => Ok(LinkKind::Stale),
    }
}

/// Where a link leads whose target is seen so.
fn link_to(target: Option<Seen>) -> LinkKind
    ensures { result ≡ link_to target }
{
    match target {
        None => LinkKind::Stale,
        Some(seen) => match seen.kind {
            Kind::Folder => LinkKind::ToFolder,
            Kind::File | Kind::Link | Kind::Other => LinkKind::ToThing,
        },
    }
}
