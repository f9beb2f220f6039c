//! A hotlist.
ghost use Rattle.std.specs.Prelude.{◌≡◌, ◌≢◌, ◌-◌, true, Some, None, length, OnOk};
ghost use Rattle.std.specs.Prelude.{OnErr, IfErr, IfNone, IfSome, MatchOption};
ghost use Rattle.hotlist.specs.HotLists.{NoMore, before, list_of, is_within};

use crate::edit::{add_in, remove_in};
use crate::error::HotEditError;
use crate::items::HotItem;
use std::alloc::Global;

/// The most levels to which groups are nested.
pub const NESTING: usize = 32;

/// A list of folders in groups, which are nested to at most 32. Contracts see the items in order.
#[derive(Drop)]
pub struct Hotlist {
    pub(crate) items: Vec<HotItem>,
    pub ghost nested: { is_within 32 (list_of items.items) ≡ true },
}

impl Hotlist {
    ghost use Rattle.hotlist.specs.ListViews.{list_in};
    ghost use Rattle.hotlist.specs.Places.{list_with_item, add_fault, list_without_item, item_at};

    /// None yet. It takes no memory.
    pub fn new(alloc: Global) -> Hotlist
        ensures { list_in result ≡ NoMore }
    {
        Hotlist {
            items: Vec::new(alloc),
        }
    }

    /// Puts an item at the end of the group at a place; the empty place is that of the list
    /// itself. `NoSuchGroup` where no group stands there, else `TooDeep` where groups would
    /// nest to more than 32 levels.
    pub fn add(&mut self, group: &[usize], item: HotItem) -> Result<(), HotEditError>
        ensures added { OnOk result
            (list_with_item group.now (before item NoMore) (list_in self.old) ≡ Some (list_in self.new)) }
        ensures fits { OnOk result (is_within (32 - length group.now) (before item NoMore) ≡ true) }
        ensures same { OnErr result (list_in self.new ≡ list_in self.old) }
        ensures refused { IfErr result (λ e.
            e ≢ HotEditError.Memory → add_fault group.now (before item NoMore) (list_in self.old) ≡ Some e) }
    {
        let levels = NESTING.saturating_sub(group.len());
        add_in(&mut self.items, group, item, levels)
    }

    /// Takes the item at a place out; with a group all that it holds. The empty place is that of no item.
    pub fn remove(&mut self, place: &[usize]) -> Option<HotItem>
        ensures removed { MatchOption result (list_without_item place.now (list_in self.old) ≡ None)
            (λ _. list_without_item place.now (list_in self.old) ≡ Some (list_in self.new)) }
        ensures same { IfNone result (list_in self.new ≡ list_in self.old) }
        ensures item { IfSome result
            (λ item. item_at place.now (list_in self.old) ≡ Some (before item NoMore)) }
    {
        remove_in(&mut self.items, place)
    }
}
