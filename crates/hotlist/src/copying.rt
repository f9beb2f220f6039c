//! A list once more.
ghost use Rattle.std.specs.Prelude.{◌≡◌, IfOk};
ghost use Rattle.hotlist.specs.HotLists.{HotList, before, list_of};
ghost use Rattle.hotlist.specs.ListViews.{list_in};

use crate::items::HotItem;
use crate::list::Hotlist;
use mc_text::NoMemory;
use std::alloc::Global;

impl Hotlist {
    /// The same list once more.
    pub fn copy(&self, alloc: Global) -> Result<Hotlist, NoMemory>
        ensures { IfOk result (λ copy. list_in copy ≡ list_in self.now) }
    {
        let items = copy_items(alloc, self.items.as_slice())?;
        Ok(Hotlist { items })
    }
}

/// The same items once more.
#[cycle(copying)]
fn copy_items(alloc: Global, items: &[HotItem]) -> Result<Vec<HotItem>, NoMemory>
    ensures { IfOk result (λ copies. list_of copies.items ≡ list_of items.now) }
{
    let mut copies = Vec::new(alloc);
    for item in items {
        copies.push(copy_item(alloc, item)?)?;
    }
    Ok(copies)
}

/// The same item once more.
#[cycle(copying)]
fn copy_item(alloc: Global, item: &HotItem) -> Result<HotItem, NoMemory>
    ensures { IfOk result (λ copy. (others : HotList) → before copy others ≡ before item.now others) }
{
    match item {
        HotItem::Entry { label, path } => Ok(HotItem::Entry {
            label: label.copy(alloc)?,
            path: path.copy(alloc)?,
        }),
        HotItem::Group { label, items } => Ok(HotItem::Group {
            label: label.copy(alloc)?,
            items: copy_items(alloc, items.as_slice())?,
        }),
    }
}
