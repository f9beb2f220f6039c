//! Copies of one file over the tree in memory: what each step reports, and whether each crash image is safe.

use rows_page::Page;

/// The lines of all copies.
pub fn tell_copies(page: &mut Page) {
    crate::rows::tell_rows(page);
    crate::rows::tell_taken(page);
    crate::rows::tell_shrunk(page);
    crate::wrong::tell_wrong(page);
}
