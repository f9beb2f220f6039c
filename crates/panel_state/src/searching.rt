//! The row of a name.
ghost use Rattle.std.specs.Prelude.{◌≡◌, ◌-◌, ◌<◌, ◌≤◌, ◌^◌, length, IfOk, IfSome, option_copied};
ghost use Rattle.panel_listing.specs.Orders.{AreArranged};
ghost use Rattle.panel_listing.specs.Listings.{rows_in};
ghost use Rattle.panel_state.specs.Panels.{current_name, is_named, row_named, row_from};

use crate::panel::Panel;
use mc_text::{Name, NoMemory};
use panel_listing::{Item, Listing, Wish};
use std::alloc::Global;

impl Panel {
    /// The name under the cursor, if it isn't `..`, once more.
    pub(crate) fn name_copy(&self, alloc: Global) -> Result<Option<Name>, NoMemory>
        ensures { IfOk result (λ name. name ≡ current_name self.now) }
    {
        match self.current_name() {
            None => Ok(None),
            Some(name) => Ok(Some(name.copy(alloc)?)),
        }
    }
}

/// The row of a name, or else another row as far as there are rows.
pub fn row_from(listing: &Listing, name: &Option<Name>, row: usize) -> usize
    ensures row { result ≡ row_from listing.now name.now row }
    ensures within { result ≤ length (rows_in listing.now) - 1 }
{
    let found = match name {
        None => None,
        Some(name) => row_named(listing, name),
    };
    match found {
        Some(found) => found,
        None => row.min(listing.len().saturating_sub(1)),
    }
}

/// The row of this name, if it is shown.
fn row_named(listing: &Listing, name: &Name) -> Option<usize>
    ensures row { result ≡ row_named listing.now name.now }
    ensures within { IfSome result (λ row. row < length (rows_in listing.now)) }
{
    for row in 0..listing.len() {
        if is_named(name, listing.item(row)) {
            return Some(row);
        }
    }
    None
}

/// Whether a row is that of a name.
fn is_named(name: &Name, item: Option<&Item>) -> bool
    ensures { result ≡ is_named name.now (option_copied item.entry) }
{
    match item {
        None => false,
        Some(item) => item.name.same(name),
    }
}

/// How many rows a listing has. Each but one is that of an item, which takes memory; so there are few.
pub fn count_rows(listing: &Listing, wish: &Wish) -> usize
    requires { AreArranged wish.now listing.now.items listing.now.shown }
    ensures value { result ≡ length (rows_in listing.now) }
    ensures bound { length (rows_in listing.now) < 2 ^ 60 }
{
    let _ = count_items(listing.items());
    let _ = wish;
    listing.len()
}

/// How many items there are. Each takes more than sixteen bytes.
fn count_items(items: &[Item]) -> usize
    ensures value { result ≡ length items.now }
    ensures bound { length items.now < 2 ^ 59 }
{
    items.len()
}
