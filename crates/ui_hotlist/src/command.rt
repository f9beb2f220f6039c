//! The keys of the box.
ghost use Rattle.std.specs.Prelude.{◌≡◌};
ghost use Rattle.ui_hotlist.specs.HotlistKeys.{hotlist_command};

use key_screen::{Base, Key};

/// What a key does while the hotlist is shown.
#[derive(Clone, Copy, Debug, Drop, PartialEq, Eq)]
pub enum HotlistCommand {
    /// Another item is current, as this key moves.
    Move(Base),
    /// Goes to the current entry, or opens the current group.
    Choose,
    /// Takes the current item out.
    Remove,
    Leave,
    Nothing,
}

/// What a key does while the hotlist is shown; one with meta does nothing.
pub fn hotlist_command(key: Key) -> HotlistCommand
    ensures { result ≡ hotlist_command key }
{
    match key.base {
        _ if key.meta => HotlistCommand::Nothing,
        Base::Up | Base::Down | Base::PgUp | Base::PgDn | Base::Home | Base::End => {
            HotlistCommand::Move(key.base)
        }
        Base::Enter => HotlistCommand::Choose,
        Base::Delete => HotlistCommand::Remove,
        Base::Escape | Base::F(10) => HotlistCommand::Leave,
        _ => HotlistCommand::Nothing,
    }
}
