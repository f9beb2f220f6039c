//! The listing of a folder.
ghost use Rattle.std.specs.Prelude.{◌≡◌, ◌<◌, ◌≤◌, None, MatchOption, length};
ghost use Rattle.std.specs.Prelude.{option_copied, slice_index_or, IfOk, OnOk, OnErr};
ghost use Rattle.tree_trait.specs.Answers.{IsAscending};
ghost use Rattle.panel_listing.specs.Arranging.{AreSound, items_at, names_of};
ghost use Rattle.panel_listing.specs.Orders.{AreArranged};
ghost use Rattle.panel_listing.specs.Listings.{nothing_listed, rows_in, place_of};

use crate::arranging::arranged;
use crate::item::Item;
use crate::wish::Wish;
use mc_text::{NoMemory, Places};
use std::alloc::Global;
use std::marker::Model;

/// What a folder holds, as it was read, and which of it is shown, in which order. The first row is `..`,
/// where the folder isn't the root, and each other row an item.
///
/// The items stay where they were read: another order or filter moves their numbers alone, and
/// takes a time that grows as the number of shown items times its logarithm. A look at a row
/// takes the same time for each.
#[derive(Drop)]
pub struct Listing {
    has_parent: bool,
    /// In the order of their names.
    items: Vec<Item>,
    /// The numbers of the items that are shown.
    shown: Places,
    unnamed: u64,
}

impl Model for Listing {
    ghost use Rattle.panel_listing.specs.Arranging.{items_at, AreSound};
    ghost use Rattle.panel_listing.specs.Listings.{Listed};

    ghost Value = { Listed };

    ghost view = { λ l. record {
      has_parent = l.has_parent;
      items = l.items.items;
      shown = items_at l.items.items l.shown;
      unnamed = l.unnamed;
    } };

    ghost invariant = { λ l. AreSound l.items.items l.shown };
}

/// Which items of a listing are to be shown, and in which order. Contracts see their numbers.
#[derive(Drop)]
pub struct ShownItems {
    numbers: Places,
}

impl Model for ShownItems {
    ghost use Rattle.std.specs.Prelude.{List, ℕ};

    ghost Value = { List ℕ };

    ghost view = { λ s. s.numbers };
}

impl Listing {
    /// Nothing, as of the root before it is read.
    pub fn nothing(alloc: Global) -> Listing
        ensures { result ≡ nothing_listed }
    {
        Listing {
            has_parent: false,
            items: Vec::new(alloc),
            shown: Places(Vec::new(alloc)),
            unnamed: 0,
        }
    }

    /// The listing of these items, which stand in the order of their names.
    pub(crate) fn of(
        alloc: Global,
        has_parent: bool,
        items: Vec<Item>,
        unnamed: u64,
        wish: &Wish,
    ) -> Result<Listing, NoMemory>
        requires { IsAscending (names_of items.items) }
        ensures parent { IfOk result (λ listing. listing.has_parent ≡ has_parent) }
        ensures items { IfOk result (λ listing. listing.items ≡ items.items) }
        ensures unnamed { IfOk result (λ listing. listing.unnamed ≡ unnamed) }
        ensures arranged { IfOk result (λ listing. AreArranged wish.now items.items listing.shown) }
    {
        let shown = arranged(alloc, items.as_slice(), wish)?;
        Ok(Listing {
            has_parent,
            items,
            shown,
            unnamed,
        })
    }

    /// Which items would be shown by another wish, and in which order. The listing stays as it is.
    pub fn shown_by(&self, alloc: Global, wish: &Wish) -> Result<ShownItems, NoMemory>
        ensures sound { IfOk result (AreSound self.now.items) }
        ensures arranged { IfOk result
            (λ shown. AreArranged wish.now self.now.items (items_at self.now.items shown)) }
    {
        let numbers = arranged(alloc, self.items.as_slice(), wish)?;
        Ok(ShownItems { numbers })
    }

    /// Shows these items. It takes no memory.
    pub fn show(&mut self, shown: ShownItems)
        requires { AreSound self.old.items shown }
        ensures { self.new ≡ record self.old { shown = items_at self.old.items shown } }
    {
        let ShownItems { numbers } = shown;
        self.shown = numbers;
    }

    /// Shows the items in another order, or others of them. The folder isn't read again.
    pub fn arrange(&mut self, alloc: Global, wish: &Wish) -> Result<(), NoMemory>
        ensures arranged { OnOk result (AreArranged wish.now self.old.items self.new.shown) }
        ensures parent { self.new.has_parent ≡ self.old.has_parent }
        ensures items { self.new.items ≡ self.old.items }
        ensures unnamed { self.new.unnamed ≡ self.old.unnamed }
        ensures refused { OnErr result (self.new ≡ self.old) }
    {
        let shown = self.shown_by(alloc, wish)?;
        self.show(shown);
        Ok(())
    }

    /// How many rows there are.
    pub fn len(&self) -> usize
        ensures { result ≡ length (rows_in self.now) }
    {
        if self.has_parent {
            return 1 + self.shown.0.len();
        }
        self.shown.0.len()
    }

    /// The item of a row. The row of `..` has none, and there is none past the last row.
    pub fn item(&self, row: usize) -> Option<&Item>
        ensures { option_copied result ≡ slice_index_or (rows_in self.now) row None }
    {
        let place = place_of(self.has_parent, row)?;
        match number_at(&self.shown, place) {
            Some(number) => Some(&self.items[number]),
            None => None,
        }
    }

    /// All items of the folder, also those that aren't shown, in the order of their names.
    pub fn items(&self) -> &[Item]
        ensures { result.now ≡ self.now.items }
    {
        self.items.as_slice()
    }

    /// How many things of the folder have names that aren't UTF-8, so that they aren't listed.
    pub fn unnamed(&self) -> u64
        ensures { result ≡ self.now.unnamed }
    {
        self.unnamed
    }
}

/// Which of the shown items a row has; that of `..` has none.
fn place_of(has_parent: bool, row: usize) -> Option<usize>
    ensures { result ≡ place_of has_parent row }
{
    if !has_parent {
        return Some(row);
    }
    row.checked_sub(1)
}

/// The number at a place, if there is one.
fn number_at(numbers: &Places, place: usize) -> Option<usize>
    ensures { MatchOption result (length numbers.now ≤ place)
        (λ number. (place < length numbers.now) × (slice_index_or numbers.now place number ≡ number)) }
{
    numbers.0.get(place).copied()
}
