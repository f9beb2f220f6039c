//! The places in a hotlist.
ghost use Rattle.std.specs.Prelude.{◌≡◌, option_map, MatchOption};
ghost use Rattle.hotlist.specs.HotLists.{HotList, NoMore, before, list_of};
ghost use Rattle.hotlist.specs.ListViews.{list_in};
ghost use Rattle.hotlist.specs.Places.{item_at, items_of_group, from_position, inside};

use crate::items::HotItem;
use crate::list::Hotlist;

impl Hotlist {
    /// The item at a place: a position in the list, then one in the group there, and so on. The empty
    /// place is that of no item.
    pub fn at(&self, place: &[usize]) -> Option<&HotItem>
        ensures { option_map (λ item. before item.now NoMore) result ≡ item_at place.now (list_in self.now) }
    {
        item_in(self.items.as_slice(), place)
    }

    /// The items of the group at a place, in their order; the empty place is that of the list itself. Where
    /// no group stands there are none.
    pub fn items_of_group(&self, place: &[usize]) -> &[HotItem]
        ensures { list_of result.now ≡ items_of_group place.now (list_in self.now) }
    {
        items_below(self.items.as_slice(), place)
    }
}

/// The items of the group at a place in a list.
fn items_below<'a>(items: &'a [HotItem], place: &[usize]) -> &'a [HotItem]
    ensures { list_of result.now ≡ items_of_group place.now (list_of items.now) }
{
    let Some((position, below)) = place.split_first() else {
        return items;
    };
    match item_of(items, *position) {
        Some(item) => items_below(items_in(item), below),
        None => &[],
    }
}

/// The item at a place in a list.
fn item_in<'a>(items: &'a [HotItem], place: &[usize]) -> Option<&'a HotItem>
    ensures { option_map (λ item. before item.now NoMore) result ≡ item_at place.now (list_of items.now) }
{
    let Some((position, below)) = place.split_first() else {
        return None;
    };
    let Some(item) = item_of(items, *position) else {
        return None;
    };
    if below.is_empty() {
        return Some(item);
    }
    item_in(items_in(item), below)
}

/// The item at a position.
fn item_of(items: &[HotItem], position: usize) -> Option<&HotItem>
    ensures { MatchOption result (from_position position (list_of items.now) ≡ NoMore)
        (λ item. (others : HotList) × (from_position position (list_of items.now) ≡ before item.now others)) }
{
    match items.get(position) {
        Some(item) => Some(item),
        None => None,
    }
}

/// The items of a group. An entry has none.
fn items_in(item: &HotItem) -> &[HotItem]
    ensures { (others : HotList) → inside (before item.now others) ≡ list_of result.now }
{
    match item {
        HotItem::Entry { .. } => &[],
        HotItem::Group { items, .. } => items.as_slice(),
    }
}
