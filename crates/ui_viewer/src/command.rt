//! The keys of the viewer.
ghost use Rattle.std.specs.Prelude.{◌≡◌};
ghost use Rattle.ui_viewer.specs.ViewerKeys.{base_command, character_command};
ghost use Rattle.ui_viewer.specs.ViewerKeys.{function_command, viewer_command};

use crate::asking::Question;
use key_screen::{Base, Key};
use mc_viewer::ViewStep;

/// What a key does while no line asks.
#[derive(Clone, Copy, Debug, Drop, PartialEq, Eq)]
pub enum ViewerCommand {
    Step(ViewStep),
    /// Asks for a line, or for a byte while rows in hexadecimal are shown.
    AskPlace,
    Ask(Question),
    SearchNext,
    Leave,
    Nothing,
}

/// What a key does while no line asks; one with meta does nothing.
pub fn viewer_command(key: Key) -> ViewerCommand
    ensures { result ≡ viewer_command key }
{
    if key.meta {
        return ViewerCommand::Nothing;
    }
    base_command(key.base)
}

fn base_command(base: Base) -> ViewerCommand
    ensures { result ≡ base_command base }
{
    match base {
        Base::Up => ViewerCommand::Step(ViewStep::Up),
        Base::Down => ViewerCommand::Step(ViewStep::Down),
        Base::PgUp => ViewerCommand::Step(ViewStep::PageUp),
        Base::PgDn => ViewerCommand::Step(ViewStep::PageDown),
        Base::Home => ViewerCommand::Step(ViewStep::Home),
        Base::End => ViewerCommand::Step(ViewStep::End),
        Base::Left => ViewerCommand::Step(ViewStep::Left),
        Base::Right => ViewerCommand::Step(ViewStep::Right),
        Base::Escape => ViewerCommand::Leave,
        Base::F(number) => function_command(number),
        Base::Char(character) => character_command(character),
        _ => ViewerCommand::Nothing,
    }
}

fn function_command(number: u8) -> ViewerCommand
    ensures { result ≡ function_command number }
{
    match number {
        2 => ViewerCommand::Step(ViewStep::Wrap),
        3 => ViewerCommand::Leave,
        4 => ViewerCommand::Step(ViewStep::Hex),
        5 => ViewerCommand::AskPlace,
        7 => ViewerCommand::Ask(Question::PlainText),
        10 => ViewerCommand::Leave,
        _ => ViewerCommand::Nothing,
    }
}

fn character_command(character: char) -> ViewerCommand
    ensures { result ≡ character_command character }
{
    match character {
        ' ' => ViewerCommand::Step(ViewStep::PageDown),
        '/' => ViewerCommand::Ask(Question::Expression),
        'b' => ViewerCommand::Step(ViewStep::PageUp),
        'n' => ViewerCommand::SearchNext,
        'q' => ViewerCommand::Leave,
        _ => ViewerCommand::Nothing,
    }
}
