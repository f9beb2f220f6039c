//! What boxes answer to keys.
use crate::fields::{mode_of, rows_of};
use crate::keys::keys_of;
use key_screen::Key;
use mc_dialogs::{InputLine, ListBox, ModeBox, QuestionBox, Reply, Shut};
use mc_text::{NoMemory, Rows};
use rows_page::Page;
use std::convert::AsStr;

/// The answer of a box of a kind. Behind the last bar of the fields stand the keys.
pub fn tell_answer(page: &mut Page, kind: &str, fields: &str) {
    let (about, words) = fields.rsplit_once('|').unwrap_or((fields, ""));
    let keys = keys_of(page, words);
    match kind {
        "mode" => ask_mode(page, about, &keys),
        "question" => ask_question(page, about, &keys),
        "list" => ask_list(page, about, &keys, false),
        "list by letters" => ask_list(page, about, &keys, true),
        "line" => ask_line(page, about, &keys),
        _ => page.fail(),
    }
}

fn ask_mode(page: &mut Page, mode: &str, keys: &[Key]) {
    match ModeBox::new(page.alloc(), "Mode", mode_of(mode)) {
        Ok(mut asked) => tell(page, asked.answer(keys)),
        Err(_error) => page.fail(),
    }
}

fn ask_question(page: &mut Page, letters: &str, keys: &[Key]) {
    match QuestionBox::new(page.alloc(), Rows::new(page.alloc()), letters.as_bytes()) {
        Ok(mut asked) => tell(page, asked.answer(keys)),
        Err(_error) => page.fail(),
    }
}

fn ask_list(page: &mut Page, rows: &str, keys: &[Key], by_letter: bool) {
    let rows = rows_of(page, rows);
    match ListBox::new(page.alloc(), "Menu", rows, 10, by_letter) {
        Ok(mut asked) => tell(page, asked.answer(keys)),
        Err(_error) => page.fail(),
    }
}

fn ask_line(page: &mut Page, text: &str, keys: &[Key]) {
    match InputLine::new(page.alloc(), "Make folder", text) {
        Ok(mut asked) => tell(page, asked.answer(page.alloc(), keys)),
        Err(_error) => page.fail(),
    }
}

/// An answer in words.
fn tell(page: &mut Page, answer: Result<Shut, NoMemory>) {
    match answer {
        Ok(Shut::Stay) => page.put("stay"),
        Ok(Shut::Closed(reply)) => tell_reply(page, &reply),
        Err(_error) => page.fail(),
    }
}

/// A reply in words. Behind a text stands a bar, so that its last blanks are seen.
fn tell_reply(page: &mut Page, reply: &Reply) {
    match reply {
        Reply::Cancel => page.put("cancel"),
        Reply::Line { text, background } => {
            page.put("text ");
            page.put(if *background {
                "in the background "
            } else {
                ""
            });
            page.put(text.as_str());
            page.put("|");
        }
        Reply::Chosen(row) => page.tell(format_args!("row {row}")),
        Reply::Letter(letter) => page.tell(format_args!("letter {}", char::from(*letter))),
        Reply::Mode(mode) => page.tell(format_args!("mode {mode:o}")),
    }
}
