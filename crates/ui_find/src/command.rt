//! The keys of the list.
ghost use Rattle.std.specs.Prelude.{◌≡◌};
ghost use Rattle.ui_find.specs.FindKeys.{find_command};

use key_screen::{Base, Key};

/// What a key does while the found paths are listed.
#[derive(Clone, Copy, Debug, Drop, PartialEq, Eq)]
pub enum FindCommand {
    /// Another path is current, as this key moves.
    Move(Base),
    /// Goes to the current path.
    Choose,
    /// Nothing more is sought; what was found stays.
    Stop,
    Leave,
    Nothing,
}

/// What a key does while the found paths are listed; one with meta does nothing.
pub fn find_command(key: Key) -> FindCommand
    ensures { result ≡ find_command key }
{
    match key.base {
        _ if key.meta => FindCommand::Nothing,
        Base::Up | Base::Down | Base::PgUp | Base::PgDn | Base::Home | Base::End => {
            FindCommand::Move(key.base)
        }
        Base::Enter => FindCommand::Choose,
        Base::Escape | Base::F(10) => FindCommand::Leave,
        Base::Ctrl(b'c') => FindCommand::Stop,
        _ => FindCommand::Nothing,
    }
}
