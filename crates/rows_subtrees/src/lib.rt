//! Copies of things with all that lies in them, over the tree in memory: what each step reports,
//! and what stands at the end.
#![tactic(auto)]

mod blocks;
mod copying;
mod crashes;
mod orders;
mod showing;
mod telling;
mod things;

use rows_page::Page;

/// Each block, with an empty line between two: its title, what is on the disk, and behind a line
/// `copy` what is copied and how.
pub fn tell_rows(page: &mut Page, rows: &str) {
    for block in rows.split("\n\n") {
        blocks::tell_block(page, block);
        page.put("\n");
    }
}
