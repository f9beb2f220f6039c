//! The items of a hotlist.
ghost use Rattle.std.specs.Prelude.{◌≡◌, ◌++◌, OnOk};
ghost use Rattle.hotlist.specs.HotFiles.{lines_that_say};
ghost use Rattle.hotlist.specs.HotLists.{NoMore, before, list_of, is_within};

use mc_text::{NoMemory, Text};

/// An item of a hotlist: a folder's path with its label, or a group of items.
#[derive(Drop)]
pub enum HotItem {
    Entry { label: Text, path: Text },
    Group { label: Text, items: Vec<HotItem> },
}

/// Whether groups are nested to at most so many.
#[cycle(nesting)]
pub fn is_within(items: &[HotItem], room: usize) -> bool
    ensures { result ≡ is_within room (list_of items.now) }
{
    for item in items {
        if !fits(item, room) {
            return false;
        }
    }
    true
}

/// Whether the item is a group with a level of its own within the room.
#[cycle(nesting)]
pub fn fits(item: &HotItem, room: usize) -> bool
    ensures { result ≡ is_within room (before item.now NoMore) }
{
    match item {
        HotItem::Entry { .. } => true,
        HotItem::Group { items, .. } => room > 0 && is_within(items.as_slice(), room - 1),
    }
}

impl HotItem {
    ghost use Rattle.std.specs.Prelude.{◌≡◌, [], ◌∷◌, ◌++◌};
    ghost use Rattle.hotlist.specs.HotLists.{NoMore, before, list_of};
    ghost use Rattle.hotlist.specs.HotLines.{EntryLine, GroupLine, EndLine};
    ghost use Rattle.hotlist.specs.HotFiles.{lines_that_say};

    /// An entry.
    pub fn entry(label: Text, path: Text) -> HotItem
        ensures { lines_that_say (before result NoMore) ≡ EntryLine label path ∷ [] }
    {
        HotItem::Entry { label, path }
    }

    /// A group of items.
    pub fn group(label: Text, items: Vec<HotItem>) -> HotItem
        ensures { lines_that_say (before result NoMore) ≡ GroupLine label
            ∷ (lines_that_say (list_of items.items) ++ EndLine ∷ []) }
    {
        HotItem::Group { label, items }
    }
}

/// Puts an item at the end.
pub fn push_item(items: &mut Vec<HotItem>, item: HotItem) -> Result<(), NoMemory>
    ensures { OnOk result (lines_that_say (list_of items.new.items) ≡ lines_that_say (list_of items.old.items)
        ++ lines_that_say (before item NoMore)) }
{
    items.push(item)?;
    Ok(())
}
