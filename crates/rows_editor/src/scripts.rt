//! Scripts that are played, and texts as a row spells them: `/` is a newline, `>` a tab, and
//! `!` a byte that is no text.
use crate::commands::command_of;
use mc_edit::{EditCmd, Editor};
use rows_page::Page;

/// What stands after each command of a script, or why it was refused.
pub fn tell_played(page: &mut Page, text: &str, script: &str) {
    let bytes = unspelled(page, text);
    match Editor::start(page.alloc(), bytes.as_slice()) {
        Ok(mut editor) => tell_commands(page, &mut editor, script),
        Err(_error) => page.fail(),
    }
}

fn tell_commands(page: &mut Page, editor: &mut Editor, script: &str) {
    let mut words = script.split_whitespace();
    if let Some(word) = words.next() {
        tell_command(page, editor, word);
    }
    for word in words {
        page.put(", ");
        tell_command(page, editor, word);
    }
}

fn tell_command(page: &mut Page, editor: &mut Editor, word: &str) {
    match command_of(page, word) {
        Some(command) => tell_after(page, editor, &command),
        None => page.fail(),
    }
}

/// What stands after a command, or why it was refused.
fn tell_after(page: &mut Page, editor: &mut Editor, command: &EditCmd) {
    match editor.command(page.alloc(), command) {
        Ok(()) => tell_text(page, editor),
        Err(error) => page.tell(error),
    }
}

/// The text with a bar at the point.
fn tell_text(page: &mut Page, editor: &Editor) {
    match editor.bytes(page.alloc()) {
        Ok(bytes) => tell_bytes(page, bytes.0.as_slice(), editor.point()),
        Err(_error) => page.fail(),
    }
}

fn tell_bytes(page: &mut Page, bytes: &[u8], point: usize) {
    let spelled = spelled(page, bytes, point);
    match std::str::from_utf8(spelled.as_slice()) {
        Ok(text) => page.put(text),
        Err(_error) => page.fail(),
    }
}

fn spelled(page: &mut Page, bytes: &[u8], point: usize) -> Vec<u8> {
    let mut spelled = Vec::new(page.alloc());
    for (at, byte) in bytes.iter().enumerate() {
        if at == point {
            page.need(spelled.push(b'|').is_ok());
        }
        page.need(spelled.push(letter_of(*byte)).is_ok());
    }
    if point == bytes.len() {
        page.need(spelled.push(b'|').is_ok());
    }
    spelled
}

/// How a row spells a byte.
fn letter_of(byte: u8) -> u8 {
    match byte {
        b'\n' => b'/',
        b'\t' => b'>',
        0xff => b'!',
        other => other,
    }
}

/// The bytes of a text as a row spells it.
pub fn unspelled(page: &mut Page, text: &str) -> Vec<u8> {
    let mut bytes = Vec::new(page.alloc());
    for letter in text.as_bytes() {
        page.need(bytes.push(byte_of(*letter)).is_ok());
    }
    bytes
}

fn byte_of(letter: u8) -> u8 {
    match letter {
        b'/' => b'\n',
        b'>' => b'\t',
        b'!' => 0xff,
        other => other,
    }
}
