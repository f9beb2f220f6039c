//! The labels of items.
ghost use Rattle.std.specs.Prelude.{◌≡◌, ◌∷◌, length, IfOk};
ghost use Rattle.hotlist.specs.HotLists.{HotList, before, list_of};
ghost use Rattle.ui_hotlist.specs.HotlistRows.{labels};

use hotlist::HotItem;
use mc_text::{NoMemory, Text};
use std::alloc::Global;

/// The label of each item.
pub fn labels_of(alloc: Global, items: &[HotItem]) -> Result<Vec<Text>, NoMemory>
    ensures labels { IfOk result (λ texts. texts.items ≡ labels (list_of items.now)) }
    ensures count { IfOk result (λ texts. length texts.items ≡ length items.now) }
{
    let mut texts = Vec::new(alloc);
    for item in items {
        texts.push(label_of(item).copy(alloc)?)?;
    }
    Ok(texts)
}

fn label_of(item: &HotItem) -> &Text
    ensures { (others : HotList) → labels (before item.now others) ≡ result.now ∷ labels others }
{
    match item {
        HotItem::Entry { label, .. } => label,
        HotItem::Group { label, .. } => label,
    }
}
