//! Settings of modes over the tree in memory: what each step reports, and which modes a crash leaves.

use rows_page::Page;

/// Each row with what comes of it: what stands at `/a/x` (`file`, `folder`, `link` or `none`), its mode,
/// the mode that it is given, the numbers of the tree's calls that fault, and what is answered to a
/// trouble (`retry`, `skip`, `abort`, or `all`: the step is made again, and passes over what meets a
/// trouble of the same kind).
pub fn tell_settings(page: &mut Page, rows: &str) {
    for row in rows.lines() {
        page.put(row);
        page.put("\n");
        crate::scene::tell_row(page, row);
    }
}
