//! Reading a folder.
ghost use Rattle.std.specs.Prelude.{◌≡◌, ◌⊎◌, ◌∷◌, ◌++◌, [], map, IfOk, IfErr, OnOk};
ghost use Rattle.tree_trait.specs.Calls.{ListFolder};
ghost use Rattle.tree_trait.specs.Change.{current};
ghost use Rattle.tree_trait.specs.Answers.{IfKnown, Reads, HasCause, count_after};
ghost use Rattle.panel_listing.specs.Items.{child_item};
ghost use Rattle.panel_listing.specs.Arranging.{names_of};
ghost use Rattle.panel_listing.specs.Orders.{AreArranged};
ghost use Rattle.panel_listing.specs.Listings.{IsListingOf, has_parent};

use crate::item::Item;
use crate::listing::Listing;
use crate::looking::look_at_child;
use crate::wish::Wish;
use mc_text::{Name, NoMemory, Path};
use std::alloc::{AllocError, Global};
use tree_trait::{ReadTree, TreeError};

/// Reads a folder, looks at each of its children, and where that is a link at what it leads to. Refused as
/// `list` of the folder is, or by a fault or want of memory in a later look; a child that can't be looked
/// at for another cause is listed with zeros.
///
/// One look for each child, and for each link a few more; then the time of `Listing::arrange`.
pub fn read_listing<T: ReadTree>(
    alloc: Global,
    tree: &mut T,
    folder: &Path,
    wish: &Wish,
) -> Result<Listing, TreeError>
    // What is listed, and when that is refused.
    ensures answer { IfKnown (T.contents tree.old) (λ log.
        Reads log (ListFolder folder.now) result (IsListingOf (current log) folder.now)) }
    ensures arranged { IfOk result (λ listing. AreArranged wish.now listing.items listing.shown) }

    // A look changes nothing.
    ensures same { T.contents tree.new ≡ T.contents tree.old }
    ensures cause { HasCause TreeError.Fault (T.fault_count tree.old) (T.fault_count tree.new) result }
    ensures counts { T.fault_count tree.new ≡ count_after (T.fault_count tree.old) result }
{
    let children = tree.list(alloc, folder)?;
    let items = items_of(alloc, tree, folder, children.names.0)?;
    let has_parent = has_parent(folder);
    match Listing::of(alloc, has_parent, items, children.unnamed, wish) {
        Ok(listing) => Ok(listing),
        Err(NoMemory) => Err(TreeError::Memory),
    }
}

/// Whether there is a folder above.
fn has_parent(folder: &Path) -> bool
    ensures { result ≡ has_parent folder.now }
{
    !folder.names().is_empty()
}

/// The items of a folder's children. The last one is looked at first, so that each name is taken off the end.
fn items_of<T: ReadTree>(
    alloc: Global,
    tree: &mut T,
    folder: &Path,
    mut names: Vec<Name>,
) -> Result<Vec<Item>, TreeError>
    ensures answer { IfKnown (T.contents tree.old) (λ log.
        IfOk result (λ items. items.items ≡ map (child_item (current log) folder.now) names.items)) }
    ensures named { IfOk result (λ items. names_of items.items ≡ names.items) }
    ensures refused { IfErr result (λ e. (e ≡ TreeError.Memory) ⊎ (e ≡ TreeError.Fault)) }
    ensures same { T.contents tree.new ≡ T.contents tree.old }
    ensures cause { HasCause TreeError.Fault (T.fault_count tree.old) (T.fault_count tree.new) result }
    ensures counts { T.fault_count tree.new ≡ count_after (T.fault_count tree.old) result }
{
    let mut items = Vec::new(alloc);
    while let Some(name) = names.pop() {
        let item = look_at_child(alloc, tree, folder, name)?;
        push_item(&mut items, item)?;
    }
    items.reverse();
    Ok(items)
}

/// Puts an item behind others. Want of memory is the tree's error.
fn push_item(items: &mut Vec<Item>, item: Item) -> Result<(), TreeError>
    ensures pushed { OnOk result (items.new.items ≡ items.old.items ++ item ∷ []) }
    ensures refused { IfErr result (λ e. e ≡ TreeError.Memory) }
{
    items.push(item).map_err(AllocError::from)?;
    Ok(())
}
