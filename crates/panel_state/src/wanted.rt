//! Those of the shown items that a key asks for.
ghost use Rattle.std.specs.Prelude.{◌≡◌, ◌∷◌, ◌++◌, [], map, filter};
ghost use Rattle.std.specs.Prelude.{if◌then◌else◌, IfOk, OnOk, option_copied};
ghost use Rattle.tree_trait.specs.Refusals.{folder_kind};
ghost use Rattle.panel_state.specs.Wanted.{is_wanted, more_wanted, names_of, fact_of};

use mc_text::{Kind, Names, NoMemory};
use panel_listing::{Item, Listing};
use std::alloc::Global;
use tagging::{FileFact, Tags};

/// Which items are asked for: all but folders, or the tagged ones. A link to a folder is no folder.
#[derive(Clone, Copy, Debug, PartialEq, Eq)]
pub enum Wanted {
    Files,
    Tagged,
}

/// Those of the shown items that are wanted, in the order of their rows.
pub fn wanted_items<'a>(
    alloc: Global,
    listing: &'a Listing,
    tags: &Tags,
    wanted: Wanted,
) -> Result<Vec<&'a Item>, NoMemory>
    ensures { IfOk result
        (λ items. map (λ item. item.now) items.items ≡ filter (is_wanted wanted tags.now) listing.now.shown) }
{
    let mut items = Vec::new(alloc);
    for row in 0..listing.len() {
        push_wanted(&mut items, tags, wanted, listing.item(row))?;
    }
    Ok(items)
}

/// Puts the item of a row behind others, where it is wanted.
fn push_wanted<'a>(
    items: &mut Vec<&'a Item>,
    tags: &Tags,
    wanted: Wanted,
    item: Option<&'a Item>,
) -> Result<(), NoMemory>
    ensures { OnOk result (map (λ item. item.now) items.new.items
        ≡ map (λ item. item.now) items.old.items
        ++ more_wanted (is_wanted wanted tags.now) (option_copied item.entry)) }
{
    match item {
        Some(item) if is_wanted(wanted, tags, item) => items.push(item)?,
        _ => (),
    }
    Ok(())
}

/// Whether an item is wanted.
fn is_wanted(wanted: Wanted, tags: &Tags, item: &Item) -> bool
    ensures { result ≡ is_wanted wanted tags.now item.now }
{
    match wanted {
        Wanted::Files => !is_folder(item.kind),
        Wanted::Tagged => tags.has(item.name.text()),
    }
}

fn is_folder(kind: Kind) -> bool
    ensures { result ≡ folder_kind kind }
{
    match kind {
        Kind::Folder => true,
        Kind::File | Kind::Link | Kind::Other => false,
    }
}

/// The names of items.
pub fn names_of(alloc: Global, items: &[&Item]) -> Result<Names, NoMemory>
    ensures { IfOk result (λ names. names ≡ names_of (map (λ item. item.now) items.now)) }
{
    let mut names = Names::new(alloc);
    for item in items {
        names.push(item.name.copy(alloc)?)?;
    }
    Ok(names)
}

/// What items are compared by.
pub fn facts_of(alloc: Global, items: &[&Item]) -> Result<Vec<FileFact>, NoMemory>
    ensures { IfOk result (λ facts. facts.items ≡ map fact_of (map (λ item. item.now) items.now)) }
{
    let mut facts = Vec::new(alloc);
    for item in items {
        facts.push(FileFact {
            name: item.name.copy(alloc)?,
            size: item.size,
            mtime: item.mtime,
        })?;
    }
    Ok(facts)
}
