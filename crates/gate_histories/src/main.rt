//! Writes 10,000 random lists of entries into packed histories, and reads each back from both ends.
#![tactic(auto)]

mod chance;
mod events;
mod lists;
mod steps;
mod texts;

use crate::chance::Chance;
use crate::lists::{Tally, read_changed, read_list};
use rows_page::{Fault, Page, print_page};

fn main(rt: HostRuntime) -> Result<(), Fault> {
    let mut page = Page::new(rt.alloc());
    let mut chance = Chance::new(64);
    tell_lists(&mut page, &mut chance, 9_900, 30);
    tell_lists(&mut page, &mut chance, 90, 600);
    tell_lists(&mut page, &mut chance, 10, 9_000);
    tell_changed(&mut page, &mut chance);
    print_page(&rt, &page)
}

/// That an entry which is another one than was written is found, read up and read back.
fn tell_changed(page: &mut Page, chance: &mut Chance) {
    let mut tally = Tally::new();
    read_changed(page, chance, &mut tally);
    let others = tally.others;
    page.tell(format_args!(
        "a list beside a text that is changed: {others} are read back as others\n"
    ));
}

/// So many lists of fewer entries than this, and how many of those that were read are others.
fn tell_lists(page: &mut Page, chance: &mut Chance, lists: u32, limit: u32) {
    let mut tally = Tally::new();
    for _ in 0..lists {
        read_list(page, chance, &mut tally, limit);
    }
    let Tally {
        lists,
        entries,
        others,
    } = tally;
    page.tell(format_args!("{lists} lists, {entries} entries: {others} are read back as others\n"));
}
