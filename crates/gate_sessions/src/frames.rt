//! Two runs by the same keys, of which one has a screen that fails.
use crate::rows::read_row;
use crate::running::mute_outcome;
use crate::scenes::plant;
use mem_tree::MemTree;
use rows_page::Page;
use rows_trees::fresh;

/// Whether a screen that fails at its second frame was given the first one alone.
pub fn tell_cut_frames(page: &mut Page) {
    let whole = given_in(page, "one file | silent | / | /a | down f10");
    let cut = given_in(page, "one file | screen 2 | / | /a | down f10");
    let (whole, cut) = (whole.as_slice(), cut.as_slice());
    if cut.len() < whole.len() && whole.starts_with(cut) {
        page.put("a failed screen was given a front of the frames\n");
    } else {
        page.put("a failed screen was given something else\n");
    }
}

/// The bytes that the screen was given in a run over silent devices.
fn given_in(page: &mut Page, row: &str) -> Vec<u8> {
    let mut given = Vec::new(page.alloc());
    match fresh(page.alloc(), 0) {
        Ok(mut tree) => {
            plant(page, &mut tree, &read_row(row));
            add_given(page, tree, row, &mut given);
        }
        Err(_error) => page.fail(),
    }
    given
}

fn add_given(page: &mut Page, tree: MemTree, row: &str, given: &mut Vec<u8>) {
    let outcome = mute_outcome(page, tree, &read_row(row));
    let bytes = outcome.screen.inner().bytes();
    page.need(given.extend_from_slice(bytes).is_ok());
}
