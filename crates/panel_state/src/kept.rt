//! Tags of names.
ghost use Rattle.std.specs.Prelude.{◌≡◌, ◌∷◌, ◌++◌, [], filter, if◌then◌else◌, IfOk, OnOk};
ghost use Rattle.std.specs.FinSet as set;
ghost use Rattle.tagging.specs.TagSets.{names_in};
ghost use Rattle.panel_state.specs.Wanted.{names_of, kept_tags};

use mc_text::{Name, Names, NoMemory};
use panel_listing::Item;
use std::alloc::Global;
use tagging::Tags;

/// The tags of names that are still in a folder with these items.
pub fn kept_tags(alloc: Global, tags: &Tags, items: &[Item]) -> Result<Tags, NoMemory>
    ensures { IfOk result (λ kept. kept ≡ kept_tags tags.now items.now) }
{
    let names = tagged_names(alloc, tags, items)?;
    tags_of(alloc, &names)
}

/// The tags of these names and no others.
pub fn tags_of(alloc: Global, names: &Names) -> Result<Tags, NoMemory>
    ensures { IfOk result (λ tags. tags ≡ names_in names.now) }
{
    let mut tags = Tags::new(alloc);
    tags.invert(alloc, names)?;
    Ok(tags)
}

/// Those names of items that are tagged.
fn tagged_names(alloc: Global, tags: &Tags, items: &[Item]) -> Result<Names, NoMemory>
    ensures { IfOk result (λ names. names ≡ filter (set.contains tags.now) (names_of items.now)) }
{
    let mut names = Names::new(alloc);
    for item in items {
        push_if(alloc, tags.has(item.name.text()), &mut names, &item.name)?;
    }
    Ok(names)
}

/// Puts a name behind others, where it is kept.
fn push_if(alloc: Global, keeps: bool, names: &mut Names, name: &Name) -> Result<(), NoMemory>
    ensures { OnOk result (names.new ≡ names.old ++ (if keeps then name.now ∷ [] else [])) }
{
    if keeps {
        names.push(name.copy(alloc)?)?;
    }
    Ok(())
}
