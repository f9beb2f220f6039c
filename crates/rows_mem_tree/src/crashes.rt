//! What a crash leaves.
use crate::calls::tell_call;
use mc_text::Bits;
use mem_tree::{Choice, Fill, MemTree};
use rows_page::{Page, number, two_fields};

/// A line for each row: a number of changing calls, a digit for each pending change (1 where it is kept),
/// `then`, and a call; and what the call answers in the image.
pub fn tell_crashes(page: &mut Page, tree: &MemTree, rows: &str) {
    for row in rows.lines() {
        page.put(row);
        page.put(": ");
        tell_crash(page, tree, row);
        page.put("\n");
    }
}

fn tell_crash(page: &mut Page, tree: &MemTree, row: &str) {
    let (crash, call) = row.split_once(" then ").unwrap_or((row, ""));
    let (count, kept) = two_fields(crash, ' ');
    let calls = number(count) as u64;
    if calls > tree.calls() {
        return page.fail();
    }
    let choice = choice_of(page, kept);
    match tree.image(page.alloc(), calls, &choice) {
        Ok(mut image) => tell_call(page, &mut image, call),
        Err(_error) => page.fail(),
    }
}

fn choice_of(page: &mut Page, kept: &str) -> Choice {
    let mut keep = Vec::new(page.alloc());
    for digit in kept.chars() {
        page.need(keep.push(digit == '1').is_ok());
    }
    Choice {
        keep: Bits(keep),
        fill: Fill::Written,
    }
}
