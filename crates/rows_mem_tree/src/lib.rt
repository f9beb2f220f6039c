//! Makes calls on trees in memory, and writes what each answers; then what the other
//! devices in memory answer.
#![tactic(auto)]

mod calls;
mod crashes;
mod devices;
mod links;
mod scenes;

use anyhow::Result;
use rows_page::Page;

/// Each block of calls with what they answer, and then a line for each other device.
pub fn tell_rows(page: &mut Page, blocks: &str) {
    for block in blocks.split("\n\n") {
        scenes::tell_block(page, block);
        page.put("\n");
    }
    tell(page, devices::all_answers(page.alloc()));
}

fn tell(page: &mut Page, answer: Result<String>) {
    match answer {
        Ok(answer) => page.tell(answer),
        Err(_error) => page.fail(),
    }
}
