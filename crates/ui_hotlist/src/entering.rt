//! What Enter finds.
ghost use Rattle.std.specs.Prelude.{◌≡◌, IfOk};
ghost use Rattle.hotlist.specs.HotLists.{HotList, before, list_of};
ghost use Rattle.hotlist.specs.Places.{from_position};
ghost use Rattle.ui_hotlist.specs.HotlistBoxes.{found_first};

use hotlist::HotItem;
use mc_text::{NoMemory, Text};
use std::alloc::Global;

/// What stands under the cursor.
#[derive(Debug, Drop)]
pub enum UnderCursor {
    Nothing,
    /// An entry with this path.
    Entry(Text),
    Group,
}

/// What stands at a position of some items.
pub fn found_at(alloc: Global, items: &[HotItem], position: usize) -> Result<UnderCursor, NoMemory>
    ensures { IfOk result (λ found. found ≡ found_first (from_position position (list_of items.now))) }
{
    match items.get(position) {
        None => Ok(UnderCursor::Nothing),
        Some(item) => found_in(alloc, item),
    }
}

fn found_in(alloc: Global, item: &HotItem) -> Result<UnderCursor, NoMemory>
    ensures { IfOk result (λ found. (others : HotList) → found ≡ found_first (before item.now others)) }
{
    match item {
        HotItem::Entry { path, .. } => Ok(UnderCursor::Entry(path.copy(alloc)?)),
        HotItem::Group { .. } => Ok(UnderCursor::Group),
    }
}
