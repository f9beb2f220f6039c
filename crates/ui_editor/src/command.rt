//! The keys of the editor.
ghost use Rattle.std.specs.Prelude.{◌≡◌};
ghost use Rattle.ui_editor.specs.EditorKeys.{control_command, editor_command, function_command};
ghost use Rattle.ui_editor.specs.EditorKeys.{meta_character, meta_command, plain_command};

use crate::asking::Question;
use key_screen::{Base, Key};
use mc_edit::EditCmd;

/// What a key does while nothing asks.
#[derive(Debug, Drop)]
pub enum EditorCommand {
    Edit(EditCmd),
    Ask(Question),
    Save,
    Leave,
    Nothing,
}

/// What a key does while nothing asks, where a page has so many rows.
pub fn editor_command(page: u16, key: Key) -> EditorCommand
    ensures { result ≡ editor_command page key }
{
    if key.meta {
        return meta_command(key.base);
    }
    plain_command(page, key.base)
}

/// What a key with meta does.
fn meta_command(base: Base) -> EditorCommand
    ensures { result ≡ meta_command base }
{
    match base {
        Base::Char(character) => meta_character(character),
        _ => EditorCommand::Nothing,
    }
}

fn meta_character(character: char) -> EditorCommand
    ensures { result ≡ meta_character character }
{
    match character {
        '<' => EditorCommand::Edit(EditCmd::TextStart),
        '>' => EditorCommand::Edit(EditCmd::TextEnd),
        'b' => EditorCommand::Edit(EditCmd::Bracket),
        'l' => EditorCommand::Ask(Question::Line),
        'r' => EditorCommand::Edit(EditCmd::Redo),
        _ => EditorCommand::Nothing,
    }
}

/// What a key without meta does.
fn plain_command(page: u16, base: Base) -> EditorCommand
    ensures { result ≡ plain_command page base }
{
    match base {
        Base::Char(character) => EditorCommand::Edit(EditCmd::Insert(character)),
        Base::Ctrl(letter) => control_command(letter),
        Base::F(number) => function_command(number),
        Base::Up => EditorCommand::Edit(EditCmd::Up),
        Base::Down => EditorCommand::Edit(EditCmd::Down),
        Base::Left => EditorCommand::Edit(EditCmd::Left),
        Base::Right => EditorCommand::Edit(EditCmd::Right),
        Base::Home => EditorCommand::Edit(EditCmd::LineStart),
        Base::End => EditorCommand::Edit(EditCmd::LineEnd),
        Base::Delete => EditorCommand::Edit(EditCmd::DeleteUnder),
        Base::PgUp => EditorCommand::Edit(EditCmd::PageUp(page)),
        Base::PgDn => EditorCommand::Edit(EditCmd::PageDown(page)),
        Base::Enter => EditorCommand::Edit(EditCmd::NewLine),
        Base::Tab => EditorCommand::Edit(EditCmd::Insert('\t')),
        Base::Backspace => EditorCommand::Edit(EditCmd::Backspace),
        Base::Escape => EditorCommand::Leave,
        _ => EditorCommand::Nothing,
    }
}

fn control_command(letter: u8) -> EditorCommand
    ensures { result ≡ control_command letter }
{
    match letter {
        b'k' => EditorCommand::Edit(EditCmd::DeleteToEnd),
        b'u' => EditorCommand::Edit(EditCmd::Undo),
        b'y' => EditorCommand::Edit(EditCmd::DeleteLine),
        _ => EditorCommand::Nothing,
    }
}

fn function_command(number: u8) -> EditorCommand
    ensures { result ≡ function_command number }
{
    match number {
        2 => EditorCommand::Save,
        3 => EditorCommand::Edit(EditCmd::Mark),
        4 => EditorCommand::Ask(Question::Replace),
        5 => EditorCommand::Edit(EditCmd::CopyBlock),
        6 => EditorCommand::Edit(EditCmd::MoveBlock),
        7 => EditorCommand::Ask(Question::Search),
        8 => EditorCommand::Edit(EditCmd::DeleteBlock),
        10 => EditorCommand::Leave,
        _ => EditorCommand::Nothing,
    }
}
