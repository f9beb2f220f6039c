//! Plays random lists of commands on small texts, by the editor and by the rules written out on plain
//! lists, and says whether both always had the same outcome, text and point. A number as the word is how
//! many lists; else there are 10,000.
#![tactic(auto)]

mod brackets;
mod chance;
mod commands;
mod moves;
mod places;
mod plain;
mod searches;
mod slices;

use crate::chance::Chance;
use crate::plain::Plain;
use anyhow::{Result, bail};
use mc_edit::{EditCmd, EditError, Editor};
use std::alloc::Global;
use std::env;

/// So many commands a list has.
const LENGTH: usize = 30;

fn main(rt: HostRuntime) -> Result<()> {
    let lists = match env::args(&rt)?.nth(1) {
        Some(word) => word.parse::<usize>()?,
        None => 10_000,
    };
    let verdict = verdict_on(rt.alloc(), lists)?;
    println!(rt; "{verdict}")?;
    Ok(())
}

/// `same`, or what differed first.
fn verdict_on(alloc: Global, lists: usize) -> Result<String> {
    let mut chance = Chance::new(27);
    for list in 0..lists {
        if let Some(difference) = difference_in(alloc, &mut chance)? {
            return Ok(format!(in alloc; "list {list}: {difference}")?);
        }
    }
    Ok(String::from_str(alloc, "same")?)
}

/// What differed in one list of commands, on a text of its own.
fn difference_in(alloc: Global, chance: &mut Chance) -> Result<Option<String>> {
    let text = commands::some_text(alloc, chance, 14)?;
    let mut editor = started(alloc, text.as_slice())?;
    let mut plain = Plain::new(alloc, text);
    for _ in 0..LENGTH {
        let command = commands::some_command(alloc, chance)?;
        if let Some(difference) = difference_after(alloc, &mut editor, &mut plain, &command)? {
            return Ok(Some(difference));
        }
    }
    Ok(None)
}

fn started(alloc: Global, text: &[u8]) -> Result<Editor> {
    match Editor::start(alloc, text) {
        Ok(editor) => Ok(editor),
        Err(error) => bail!("{error}"),
    }
}

/// What differs after one command.
fn difference_after(
    alloc: Global,
    editor: &mut Editor,
    plain: &mut Plain,
    command: &EditCmd,
) -> Result<Option<String>> {
    let refusal = editor.command(alloc, command).err();
    let expected = plain.play(alloc, command)?;
    if refusal == expected && is_same(alloc, editor, plain)? {
        return Ok(None);
    }
    told(alloc, editor, plain, command, refusal)
}

fn is_same(alloc: Global, editor: &Editor, plain: &Plain) -> Result<bool> {
    let bytes = editor.bytes(alloc)?;
    Ok(bytes.0.as_slice() == plain.bytes.as_slice() && editor.point() == plain.point)
}

fn told(
    alloc: Global,
    editor: &Editor,
    plain: &Plain,
    command: &EditCmd,
    refusal: Option<EditError>,
) -> Result<Option<String>> {
    let bytes = editor.bytes(alloc)?;
    let (point, wanted) = (editor.point(), plain.point);
    Ok(Some(format!(in alloc;
        "{command:?}: {refusal:?}, {bytes:?} at {point}, not {:?} at {wanted}",
        plain.bytes
    )?))
}
