//! Random texts and commands.
use crate::chance::Chance;
use anyhow::Result;
use mc_edit::EditCmd;
use mc_text::Bytes;
use std::alloc::Global;

/// A text of less than `limit` pieces.
pub fn some_text(alloc: Global, chance: &mut Chance, limit: u64) -> Result<Vec<u8>> {
    let mut text = Vec::new(alloc);
    for _ in 0..chance.below(limit) {
        text.extend_from_slice(piece(chance.below(16)))?;
    }
    Ok(text)
}

/// Letters, newlines, tabs, brackets, wide and combining characters, and a byte that is no text.
fn piece(which: u64) -> &'static [u8] {
    match which {
        0 | 1 => b"a",
        2 => b"b",
        3 => b"ab",
        4 | 5 | 6 => b"\n",
        7 => b"\t",
        8 => b"(",
        9 => b")",
        10 => b"[",
        11 => "é".as_bytes(),
        12 => "日".as_bytes(),
        13 => "\u{301}".as_bytes(),
        14 => b"]",
        _ => b"\xff",
    }
}

/// One of all commands; those that change the text and take that back come more often.
pub fn some_command(alloc: Global, chance: &mut Chance) -> Result<EditCmd> {
    match chance.below(4) {
        0 => Ok(some_edit(chance)),
        1 => Ok(some_move(chance)),
        2 => Ok(some_block_command(chance)),
        _ => some_search(alloc, chance),
    }
}

fn some_edit(chance: &mut Chance) -> EditCmd {
    match chance.below(10) {
        0 => EditCmd::NewLine,
        1 => EditCmd::Backspace,
        2 => EditCmd::DeleteUnder,
        3 => EditCmd::DeleteLine,
        4 => EditCmd::DeleteToEnd,
        5 | 6 => EditCmd::Undo,
        7 => EditCmd::Redo,
        _ => EditCmd::Insert(some_character(chance)),
    }
}

fn some_character(chance: &mut Chance) -> char {
    match chance.below(6) {
        0 => 'a',
        1 => 'b',
        2 => '\n',
        3 => '日',
        4 => '\u{301}',
        _ => ')',
    }
}

fn some_move(chance: &mut Chance) -> EditCmd {
    match chance.below(11) {
        0 => EditCmd::Left,
        1 => EditCmd::Right,
        2 => EditCmd::Up,
        3 => EditCmd::Down,
        4 => EditCmd::LineStart,
        5 => EditCmd::LineEnd,
        6 => EditCmd::TextStart,
        7 => EditCmd::TextEnd,
        8 => EditCmd::PageUp(some_count(chance)),
        9 => EditCmd::PageDown(some_count(chance)),
        _ => EditCmd::GoLine(chance.below(6)),
    }
}

fn some_count(chance: &mut Chance) -> u16 {
    match chance.below(3) {
        0 => 0,
        1 => 1,
        _ => 2,
    }
}

fn some_block_command(chance: &mut Chance) -> EditCmd {
    match chance.below(10) {
        0 => EditCmd::CopyBlock,
        1 => EditCmd::MoveBlock,
        2 => EditCmd::DeleteBlock,
        3 => EditCmd::Right,
        4 => EditCmd::Undo,
        5 => EditCmd::Redo,
        6 => EditCmd::Left,
        _ => EditCmd::Mark,
    }
}

fn some_search(alloc: Global, chance: &mut Chance) -> Result<EditCmd> {
    match chance.below(5) {
        0 => Ok(EditCmd::Bracket),
        1 => Ok(EditCmd::TextStart),
        2 => Ok(EditCmd::Find(some_bytes(alloc, chance)?)),
        _ => some_replacement(alloc, chance),
    }
}

fn some_replacement(alloc: Global, chance: &mut Chance) -> Result<EditCmd> {
    let what = some_bytes(alloc, chance)?;
    let new = some_bytes(alloc, chance)?;
    Ok(EditCmd::ReplaceAll(what, new))
}

fn some_bytes(alloc: Global, chance: &mut Chance) -> Result<Bytes> {
    Ok(Bytes(some_text(alloc, chance, 3)?))
}
