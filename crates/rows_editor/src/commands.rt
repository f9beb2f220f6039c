//! The commands of a script, by their words.
use crate::scripts::unspelled;
use mc_edit::EditCmd;
use mc_text::Bytes;
use rows_page::{Page, two_fields};

/// The command that a word spells; what it is about stands behind a colon.
pub fn command_of(page: &mut Page, word: &str) -> Option<EditCmd> {
    match word.split_once(':') {
        Some((name, about)) => command_about(page, name, about),
        None => plain_command(word),
    }
}

fn command_about(page: &mut Page, name: &str, about: &str) -> Option<EditCmd> {
    match name {
        "x" => Some(EditCmd::Insert(about.chars().next().unwrap_or(' '))),
        "find" => Some(EditCmd::Find(Bytes(unspelled(page, about)))),
        "all" => Some(replacing(page, about)),
        _ => counted_command(name, about),
    }
}

/// A replacement, with `=` between its texts.
fn replacing(page: &mut Page, about: &str) -> EditCmd {
    let (what, new) = two_fields(about, '=');
    EditCmd::ReplaceAll(Bytes(unspelled(page, what)), Bytes(unspelled(page, new)))
}

/// A command with a number.
fn counted_command(name: &str, about: &str) -> Option<EditCmd> {
    match name {
        "pgup" => Some(EditCmd::PageUp(about.parse().ok()?)),
        "pgdn" => Some(EditCmd::PageDown(about.parse().ok()?)),
        "go" => Some(EditCmd::GoLine(about.parse().ok()?)),
        _ => None,
    }
}

/// A command that a single word spells.
fn plain_command(word: &str) -> Option<EditCmd> {
    match word {
        "mark" => Some(EditCmd::Mark),
        "copy" => Some(EditCmd::CopyBlock),
        "move" => Some(EditCmd::MoveBlock),
        "cut" => Some(EditCmd::DeleteBlock),
        "undo" => Some(EditCmd::Undo),
        "redo" => Some(EditCmd::Redo),
        "bracket" => Some(EditCmd::Bracket),
        _ => change_of(word),
    }
}

/// A change at the point.
fn change_of(word: &str) -> Option<EditCmd> {
    match word {
        "nl" => Some(EditCmd::NewLine),
        "bs" => Some(EditCmd::Backspace),
        "del" => Some(EditCmd::DeleteUnder),
        "line" => Some(EditCmd::DeleteLine),
        "kill" => Some(EditCmd::DeleteToEnd),
        _ => move_of(word),
    }
}

/// A move of the point.
fn move_of(word: &str) -> Option<EditCmd> {
    match word {
        "left" => Some(EditCmd::Left),
        "right" => Some(EditCmd::Right),
        "up" => Some(EditCmd::Up),
        "down" => Some(EditCmd::Down),
        "home" => Some(EditCmd::LineStart),
        "end" => Some(EditCmd::LineEnd),
        "top" => Some(EditCmd::TextStart),
        "bottom" => Some(EditCmd::TextEnd),
        _ => None,
    }
}
