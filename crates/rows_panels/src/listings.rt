//! The names of the rows of a listing.
use crate::wishes::{all_by_name, wish_of};
use mc_text::Path;
use panel_listing::{Listing, Wish, read_listing};
use rows_page::{Page, number, two_fields};
use std::alloc::Global;
use tree_trait::{Tree, TreeError};

/// What a folder's listing is, read by a wish.
pub fn tell_read<T: Tree>(page: &mut Page, tree: &mut T, fields: &str) {
    let (folder, wished) = two_fields(fields, '|');
    let wish = wish_of(page, wished);
    match listed(page.alloc(), tree, folder, &wish) {
        Ok(listing) => tell_names(page, &listing, 1),
        Err(error) => page.tell(error),
    }
}

/// The same of a listing that is read by name, and then arranged.
pub fn tell_again<T: Tree>(page: &mut Page, tree: &mut T, fields: &str) {
    let (folder, wished) = two_fields(fields, '|');
    match listed(page.alloc(), tree, folder, &all_by_name()) {
        Ok(mut listing) => tell_arranged(page, &mut listing, wished, 1),
        Err(error) => page.tell(error),
    }
}

/// The number of items, and the same by one wish after the other, of the names only each so manieth.
pub fn tell_each<T: Tree>(page: &mut Page, tree: &mut T, fields: &str) {
    let (step, fields) = two_fields(fields, '|');
    let (folder, wishes) = two_fields(fields, '|');
    match listed(page.alloc(), tree, folder, &all_by_name()) {
        Ok(mut listing) => tell_counted(page, &mut listing, wishes, number(step)),
        Err(error) => page.tell(error),
    }
}

/// The listing of a folder.
pub fn listed<T: Tree>(
    alloc: Global,
    tree: &mut T,
    folder: &str,
    wish: &Wish,
) -> Result<Listing, TreeError> {
    match Path::parse(alloc, folder) {
        Ok(folder) => read_listing(alloc, tree, &folder, wish),
        Err(_error) => Err(TreeError::Memory),
    }
}

fn tell_counted(page: &mut Page, listing: &mut Listing, wishes: &str, step: usize) {
    page.tell(format_args!("{} items", listing.items().len()));
    for wished in wishes.split(';') {
        page.put("; ");
        tell_arranged(page, listing, wished, step);
    }
}

fn tell_arranged(page: &mut Page, listing: &mut Listing, wished: &str, step: usize) {
    let wish = wish_of(page, wished);
    page.need(listing.arrange(page.alloc(), &wish).is_ok());
    tell_names(page, listing, step);
}

/// Each so manieth of the rows, and how many things have names that aren't UTF-8.
fn tell_names(page: &mut Page, listing: &Listing, step: usize) {
    for row in 0..listing.len() {
        if row % step.max(1) == 0 {
            tell_name(page, listing, row);
        }
    }
    if listing.unnamed() > 0 {
        page.tell(format_args!("; {} unnamed", listing.unnamed()));
    }
}

fn tell_name(page: &mut Page, listing: &Listing, row: usize) {
    if row > 0 {
        page.put(", ");
    }
    match listing.item(row) {
        None => page.put(".."),
        Some(item) => page.put(item.name.text()),
    }
}
