//! The keys of the panels that need no box.
ghost use Rattle.std.specs.Prelude.{◌≡◌};
ghost use Rattle.panel_pair.specs.Keys.{control_command, key_command, meta_command, plain_command};

use crate::command::PanelCommand;
use key_screen::{Base, Key};

/// What a key does to the panels, if it is one of theirs that needs no box.
pub fn key_command(key: Key) -> Option<PanelCommand>
    ensures { result ≡ key_command key }
{
    if key.meta {
        return meta_command(key.base);
    }
    plain_command(key.base)
}

fn plain_command(base: Base) -> Option<PanelCommand>
    ensures { result ≡ plain_command base }
{
    match base {
        Base::Up => Some(PanelCommand::Move(Base::Up)),
        Base::Down => Some(PanelCommand::Move(Base::Down)),
        Base::PgUp => Some(PanelCommand::Move(Base::PgUp)),
        Base::PgDn => Some(PanelCommand::Move(Base::PgDn)),
        Base::Home => Some(PanelCommand::Move(Base::Home)),
        Base::End => Some(PanelCommand::Move(Base::End)),
        Base::Tab => Some(PanelCommand::SwitchPanel),
        Base::Enter => Some(PanelCommand::Enter),
        Base::Insert => Some(PanelCommand::Toggle),
        Base::Char('*') => Some(PanelCommand::Invert),
        Base::Ctrl(letter) => control_command(letter),
        _ => None,
    }
}

fn control_command(letter: u8) -> Option<PanelCommand>
    ensures { result ≡ control_command letter }
{
    match letter {
        b'r' => Some(PanelCommand::ReadAgain),
        b't' => Some(PanelCommand::Toggle),
        b'u' => Some(PanelCommand::SwapPanels),
        _ => None,
    }
}

fn meta_command(base: Base) -> Option<PanelCommand>
    ensures { result ≡ meta_command base }
{
    match base {
        Base::Char('.') => Some(PanelCommand::ToggleHidden),
        Base::Char('u') => Some(PanelCommand::Forward),
        Base::Char('y') => Some(PanelCommand::Back),
        _ => None,
    }
}
