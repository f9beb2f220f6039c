//! Which items are shown, and in which order. What is moved are their numbers, never their names.
ghost use Rattle.std.specs.Prelude.{◌≡◌, ◌<◌, ◌++◌, ◌∷◌, [], All, true, map, option_map};
ghost use Rattle.std.specs.Prelude.{filter, replicate, length, if◌then◌else◌, IfOk, OnOk};
ghost use Rattle.std.specs.List.Sorted.{IsPermutation, IsSortedBy};
ghost use Rattle.tree_trait.specs.Answers.{IsAscending};
ghost use Rattle.tagging.specs.Patterns.{is_found};
ghost use Rattle.panel_listing.specs.Orders.{is_shown, passes, AreArranged};
ghost use Rattle.panel_listing.specs.Arranging.{names_of, name_marks, behind_name, items_at};
ghost use Rattle.panel_listing.specs.Arranging.{item_in, comes_before, IsNumberOf};

use crate::item::Item;
use crate::wish::Wish;
use mc_text::{Name, Names, NoMemory, Places};
use std::alloc::Global;
use tagging::Pattern;

/// An item with its number among those of the folder.
#[derive(Clone, Copy, Drop)]
pub struct Numbered<'a> {
    number: usize,
    item: &'a Item,
}

/// The numbers of the items that are shown, in the order that is wished for. No two of them tie: the names
/// of a folder differ, and ties go by them. The time grows as the number of the shown ones times its
/// logarithm; a pattern is read once.
pub fn arranged(alloc: Global, items: &[Item], wish: &Wish) -> Result<Places, NoMemory>
    requires { IsAscending (names_of items.now) }
    ensures within { IfOk result (λ shown. All (λ number. number < length items.now) shown) }
    ensures arranged { IfOk result (λ shown. AreArranged wish.now items.now (items_at items.now shown)) }
{
    let mut rows = shown(alloc, items, wish)?;
    sort_rows(&mut rows, wish)?;
    let numbers = numbers(alloc, rows.as_slice())?;
    Ok(numbers)
}

/// Sorts the rows as it is wished.
fn sort_rows(rows: &mut Vec<Numbered>, wish: &Wish) -> Result<(), NoMemory>
    ensures kept { OnOk result (IsPermutation rows.old.items rows.new.items) }
    ensures ordered { OnOk result (IsSortedBy (comes_before wish.now) rows.new.items) }
{
    rows.sort_by(|mine, theirs| wish.compare(mine.item, theirs.item))?;
    Ok(())
}

/// The numbers of items.
fn numbers(alloc: Global, rows: &[Numbered]) -> Result<Places, NoMemory>
    ensures { IfOk result (λ numbers. numbers ≡ map (λ row. row.number) rows.now) }
{
    let mut numbers = Vec::new(alloc);
    for row in rows {
        numbers.push(row.number)?;
    }
    Ok(Places(numbers))
}

/// The items that are shown, as they were read, each with its number.
fn shown<'a>(alloc: Global, items: &'a [Item], wish: &Wish) -> Result<Vec<Numbered<'a>>, NoMemory>
    ensures numbered { IfOk result (λ rows. All (IsNumberOf items.now) rows.items) }
    ensures shown { IfOk result (λ rows. map item_in rows.items ≡ filter (is_shown wish.now) items.now) }
{
    let passing = passing(alloc, items, &wish.filter)?;
    let mut rows = Vec::new(alloc);
    for number in 0..items.len() {
        let item = &items[number];
        push_if(
            wish.shows(item, passing[number]),
            &mut rows,
            Numbered { number, item },
        )?;
    }
    Ok(rows)
}

/// Puts an item behind others, where it is shown.
fn push_if<'a>(shows: bool, rows: &mut Vec<Numbered<'a>>, row: Numbered<'a>) -> Result<(), NoMemory>
    ensures { OnOk result (rows.new.items ≡ rows.old.items ++ (if shows then row.entry ∷ [] else [])) }
{
    if shows {
        rows.push(row)?;
    }
    Ok(())
}

/// Whether the filter lets each item's name through.
fn passing(alloc: Global, items: &[Item], filter: &Option<Pattern>) -> Result<Vec<bool>, NoMemory>
    ensures { IfOk result (λ passing. passing.items ≡ map (λ item. passes filter.now item.name) items.now) }
{
    match filter {
        None => all_pass(alloc, items.len()),
        Some(pattern) => found(alloc, items, pattern),
    }
}

/// So many names that pass.
fn all_pass(alloc: Global, count: usize) -> Result<Vec<bool>, NoMemory>
    ensures { IfOk result (λ passing. passing.items ≡ replicate count true) }
{
    let mut passing = Vec::new(alloc);
    for _ in 0..count {
        passing.push(true)?;
    }
    Ok(passing)
}

/// Whether a pattern finds each item's name. It is read once for them all.
fn found(alloc: Global, items: &[Item], pattern: &Pattern) -> Result<Vec<bool>, NoMemory>
    ensures { IfOk result
        (λ passing. passing.items ≡ map (λ item. is_found pattern.now item.name) items.now) }
{
    let names = names_of(alloc, items)?;
    let found = pattern.found_among(alloc, &names)?;
    marked(alloc, items, found.as_slice())
}

/// The names of items.
fn names_of(alloc: Global, items: &[Item]) -> Result<Names, NoMemory>
    ensures { IfOk result (λ names. names ≡ names_of items.now) }
{
    let mut names = Names::new(alloc);
    for item in items {
        names.push(item.name.copy(alloc)?)?;
    }
    Ok(names)
}

/// Whether each item's name is among these, which are some of those names in their order.
fn marked(alloc: Global, items: &[Item], some: &[Name]) -> Result<Vec<bool>, NoMemory>
    ensures { IfOk result (λ marks. marks.items ≡ name_marks (names_of items.now) some.now) }
{
    let mut marks = Vec::new(alloc);
    let mut rest = items;
    let mut left = some;
    while let Some((item, more)) = rest.split_first() {
        let behind = behind_name(&item.name, left);
        marks.push(behind.is_some())?;
        left = behind.unwrap_or(left);
        rest = more;
    }
    Ok(marks)
}

/// What stands behind a name, where that is the first of some names.
fn behind_name<'a>(name: &Name, some: &'a [Name]) -> Option<&'a [Name]>
    ensures { option_map (λ behind. behind.now) result ≡ behind_name name.now some.now }
{
    match some.split_first() {
        Some((first, more)) if first.same(name) => Some(more),
        _ => None,
    }
}
