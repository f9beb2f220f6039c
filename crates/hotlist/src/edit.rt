//! Changes of a list of items.
ghost use Rattle.std.specs.Prelude.{◌≡◌, ◌≢◌, true, false, Some, None, is_none};
ghost use Rattle.std.specs.Prelude.{OnOk, OnErr, IfErr, IfNone, IfSome, MatchOption};
ghost use Rattle.hotlist.specs.HotLists.{HotList, NoMore, before, list_of, is_within};
ghost use Rattle.hotlist.specs.Places.{list_with_item, list_without_item, changed_at};
ghost use Rattle.hotlist.specs.Places.{followed_by, item_at, inside, fault_of};

use crate::error::HotEditError;
use crate::items::{HotItem, fits};

/// Puts an item at the end of the group at a place, if one stands there and the item nests to no more levels.
#[cycle(adding)]
pub fn add_in(
    items: &mut Vec<HotItem>,
    group: &[usize],
    item: HotItem,
    levels: usize,
) -> Result<(), HotEditError>
    ensures added { OnOk result (list_with_item group.now (before item NoMore) (list_of items.old.items)
        ≡ Some (list_of items.new.items)) }
    ensures fits { OnOk result (is_within levels (before item NoMore) ≡ true) }
    ensures same { OnErr result (list_of items.new.items ≡ list_of items.old.items) }
    ensures refused { IfErr result (λ e. e ≢ HotEditError.Memory →
        fault_of (is_none (list_with_item group.now (before item NoMore) (list_of items.old.items)))
        (is_within levels (before item NoMore)) ≡ Some e) }
{
    match group.split_first() {
        None => push_last(items, item, levels),
        Some((position, below)) => {
            if *position >= items.len() {
                return Err(HotEditError::NoSuchGroup);
            }
            add_below(&mut items[*position], below, item, levels)
        }
    }
}

/// Puts an item at the end, if it nests to no more levels.
fn push_last(items: &mut Vec<HotItem>, item: HotItem, levels: usize) -> Result<(), HotEditError>
    ensures added { OnOk result
        (list_of items.new.items ≡ followed_by (list_of items.old.items) (before item NoMore)) }
    ensures fits { OnOk result (is_within levels (before item NoMore) ≡ true) }
    ensures same { OnErr result (list_of items.new.items ≡ list_of items.old.items) }
    ensures refused { IfErr result
        (λ e. e ≢ HotEditError.Memory → fault_of false (is_within levels (before item NoMore)) ≡ Some e) }
{
    if !fits(&item, levels) {
        return Err(HotEditError::TooDeep);
    }
    match items.push(item) {
        Ok(()) => Ok(()),
        Err(_refused) => Err(HotEditError::Memory),
    }
}

/// The same within the group that the item is. `NoSuchGroup` where it is an entry.
#[cycle(adding)]
fn add_below(
    group: &mut HotItem,
    below: &[usize],
    item: HotItem,
    levels: usize,
) -> Result<(), HotEditError>
    ensures added { OnOk result ((others : HotList)
        → changed_at 0 (list_with_item below.now (before item NoMore)) (before group.old others)
        ≡ Some (before group.new others)) }
    ensures fits { OnOk result (is_within levels (before item NoMore) ≡ true) }
    ensures same { OnErr result ((others : HotList) → before group.new others ≡ before group.old others) }
    ensures refused { IfErr result (λ e. e ≢ HotEditError.Memory → (others : HotList) →
        fault_of (is_none (changed_at 0 (list_with_item below.now (before item NoMore))
        (before group.old others))) (is_within levels (before item NoMore)) ≡ Some e) }
{
    match group {
        HotItem::Entry { .. } => Err(HotEditError::NoSuchGroup),
        HotItem::Group { items, .. } => add_in(items, below, item, levels),
    }
}

/// Takes the item at a place out.
#[cycle(removing)]
pub fn remove_in(items: &mut Vec<HotItem>, place: &[usize]) -> Option<HotItem>
    ensures removed { MatchOption result (list_without_item place.now (list_of items.old.items) ≡ None)
        (λ _. list_without_item place.now (list_of items.old.items) ≡ Some (list_of items.new.items)) }
    ensures same { IfNone result (list_of items.new.items ≡ list_of items.old.items) }
    ensures item { IfSome result
        (λ item. item_at place.now (list_of items.old.items) ≡ Some (before item NoMore)) }
{
    let Some((position, below)) = place.split_first() else {
        return None;
    };
    if *position >= items.len() {
        return None;
    }
    if below.is_empty() {
        return Some(items.remove(*position));
    }
    remove_below(&mut items[*position], below)
}

/// The same within the group that the item is.
#[cycle(removing)]
fn remove_below(group: &mut HotItem, below: &[usize]) -> Option<HotItem>
    ensures removed { MatchOption result
        ((others : HotList) → changed_at 0 (list_without_item below.now) (before group.old others) ≡ None)
        (λ _. (others : HotList) → changed_at 0 (list_without_item below.now) (before group.old others)
        ≡ Some (before group.new others)) }
    ensures same { IfNone result ((others : HotList) → before group.new others ≡ before group.old others) }
    ensures item { IfSome result (λ item. (others : HotList)
        → item_at below.now (inside (before group.old others)) ≡ Some (before item NoMore)) }
{
    match group {
        HotItem::Entry { .. } => None,
        HotItem::Group { items, .. } => remove_in(items, below),
    }
}
