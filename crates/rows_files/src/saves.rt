//! Saves of files over the tree in memory: what each step reports, and what a crash leaves of the file.

use rows_page::Page;

/// Each row with what comes of it: what stands at `/t/x` (`file`, `folder`, `link`, `other` or `none`) and
/// its mode, how many bytes are saved there, how many the files of the mount at `/t` may have, if there is
/// one, how many names of a part are taken, the numbers of the tree's calls that fault, and what is
/// answered to a trouble (`retry`, `skip` or `abort`).
pub fn tell_saves(page: &mut Page, rows: &str) {
    for row in rows.lines() {
        page.put(row);
        page.put("\n");
        crate::save_scene::tell_row(page, row);
    }
}
