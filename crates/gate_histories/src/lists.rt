//! Lists of entries, packed, and read back from both ends.
use crate::chance::Chance;
use crate::events::{Counts, some_entry};
use crate::steps::{Style, some_style};
use rows_page::Page;
use session_entries::Entry;
use session_packed::PackedEntries;
use std::convert::AsStr;

/// How many lists were read back, how many entries these had, and how many of the entries that were read
/// were others than those that were written.
#[derive(Clone, Copy, Drop)]
pub struct Tally {
    pub lists: u64,
    pub entries: u64,
    pub others: u64,
}

impl Tally {
    pub fn new() -> Tally {
        Tally {
            lists: 0,
            entries: 0,
            others: 0,
        }
    }

    /// One more entry that is another one.
    fn note_other(&mut self) {
        self.others = self.others.saturating_add(1);
    }

    /// One more list, of so many entries.
    fn note_list(&mut self, entries: usize) {
        self.lists = self.lists.saturating_add(1);
        self.entries = self.entries.saturating_add(entries as u64);
    }
}

/// Writes a list of fewer entries than this, and reads it back from both ends.
pub fn read_list(page: &mut Page, chance: &mut Chance, tally: &mut Tally, limit: u32) {
    match PackedEntries::new(page.alloc()) {
        Ok(mut packed) => {
            let written = write_entries(page, chance, &mut packed, limit);
            tally.note_list(written.len());
            read_up(page, tally, &packed, written.as_slice());
            read_back(page, tally, &packed, written.as_slice());
        }
        Err(_error) => page.fail(),
    }
}

/// Writes a list, and reads it back beside texts of which the newest is another one: from both ends one entry
/// has to be found to be another.
pub fn read_changed(page: &mut Page, chance: &mut Chance, tally: &mut Tally) {
    match PackedEntries::new(page.alloc()) {
        Ok(mut packed) => {
            let mut written = write_entries(page, chance, &mut packed, 30);
            let _newest = written.pop();
            match String::from_str(page.alloc(), "another") {
                Ok(another) => page.need(written.push(another).is_ok()),
                Err(_error) => page.fail(),
            }
            read_up(page, tally, &packed, written.as_slice());
            read_back(page, tally, &packed, written.as_slice());
        }
        Err(_error) => page.fail(),
    }
}

/// Packs entries, and tells of each what it was.
fn write_entries(
    page: &mut Page,
    chance: &mut Chance,
    packed: &mut PackedEntries,
    limit: u32,
) -> Vec<String> {
    let mut written = Vec::new(page.alloc());
    let style = some_style(chance);
    let mut counts = Counts {
        calls: 0,
        faults: 0,
    };
    for _ in 0..chance.below(limit) {
        let entry = some_entry(page, chance, style, counts);
        counts = Counts {
            calls: entry.calls,
            faults: entry.faults,
        };
        let text = told(page, &entry);
        page.need(written.push(text).is_ok());
        pack(page, packed, entry);
    }
    written
}

fn pack(page: &mut Page, packed: &mut PackedEntries, entry: Entry) {
    match packed.reserve(1) {
        Ok(()) => packed.push(entry),
        Err(_error) => page.fail(),
    }
}

/// All that an entry holds.
fn told(page: &mut Page, entry: &Entry) -> String {
    match format!(in page.alloc(); "{entry:?}") {
        Ok(text) => text,
        Err(_error) => {
            page.fail();
            String::new(page.alloc())
        }
    }
}

/// Reads from the oldest entry on.
fn read_up(page: &mut Page, tally: &mut Tally, packed: &PackedEntries, written: &[String]) {
    let mut walk = packed.oldest_first(page.alloc());
    for text in written {
        match walk.next(page.alloc()) {
            Ok(Some(met)) => compare(page, tally, met.entry(), text),
            Ok(None) => tally.note_other(),
            Err(_error) => page.fail(),
        }
    }
    match walk.next(page.alloc()) {
        Ok(None) => (),
        Ok(Some(_met)) => tally.note_other(),
        Err(_error) => page.fail(),
    }
}

/// Reads from the newest entry back.
fn read_back(page: &mut Page, tally: &mut Tally, packed: &PackedEntries, written: &[String]) {
    match packed.newest_first(page.alloc()) {
        Ok(mut walk) => {
            for text in written.iter().rev() {
                match walk.next(page.alloc()) {
                    Ok(Some(met)) => compare(page, tally, met.entry(), text),
                    Ok(None) => tally.note_other(),
                    Err(_error) => page.fail(),
                }
            }
            match walk.next(page.alloc()) {
                Ok(None) => (),
                Ok(Some(_met)) => tally.note_other(),
                Err(_error) => page.fail(),
            }
        }
        Err(_error) => page.fail(),
    }
}

/// Notes an entry that is another one than was written.
fn compare(page: &mut Page, tally: &mut Tally, entry: &Entry, written: &str) {
    if told(page, entry).as_str() != written {
        tally.note_other();
    }
}
