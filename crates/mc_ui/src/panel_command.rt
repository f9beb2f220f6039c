//! The keys of the panels.
ghost use Rattle.std.specs.Prelude.{◌≡◌};
ghost use Rattle.panel_boxes.specs.Openings.{opening_of as opening_by};
ghost use Rattle.mc_ui.specs.PanelKeys.{box_or_other, meta_command as command_of_meta};
ghost use Rattle.mc_ui.specs.PanelKeys.{other_command as command_of_base};
ghost use Rattle.mc_ui.specs.PanelKeys.{panel_command_of, plain_base as plain_base_of};

use key_screen::{Base, Key};
use panel_boxes::{Opening, opening_of};
use panel_pair::{PanelCommand, key_command};
use ui_plans::Opens;
use ui_words::Carry;

/// What a key does while no box is open.
#[derive(Debug, Drop)]
pub enum KeyCommand {
    /// It works on the panels.
    Work(PanelCommand),
    ShowHelp,
    /// It goes where Enter does, or views what stands there.
    View,
    Open(Opens),
    /// It asks for a new folder.
    AskFolder,
    /// It opens a box of the panels.
    OpenPanelBox(Opening),
    /// It asks what is to be sought.
    Find,
    Quit,
    Nothing,
}

/// What a key does in the panels; those that are not built do nothing.
pub fn panel_command(key: Key) -> KeyCommand
    ensures { result ≡ panel_command_of key }
{
    match key_command(key) {
        Some(command) => KeyCommand::Work(command),
        None => open_or_other(key),
    }
}

/// What a key does that isn't a command of the panels.
fn open_or_other(key: Key) -> KeyCommand
    ensures { result ≡ box_or_other (opening_by key) key }
{
    match opening_of(key) {
        Some(opening) => KeyCommand::OpenPanelBox(opening),
        None if key.meta => meta_command(key.base),
        None => other_command(key.base),
    }
}

/// What a key with meta does.
fn meta_command(base: Base) -> KeyCommand
    ensures { result ≡ command_of_meta base }
{
    match base {
        Base::Char('?') => KeyCommand::Find,
        _ => KeyCommand::Nothing,
    }
}

/// What a key without meta does that works on no panel.
fn other_command(base: Base) -> KeyCommand
    ensures { result ≡ command_of_base base }
{
    match base {
        Base::F(1) => KeyCommand::ShowHelp,
        Base::F(3) => KeyCommand::View,
        Base::F(5) => KeyCommand::Open(Opens::SourceMask(Carry::Copy)),
        Base::F(6) => KeyCommand::Open(Opens::SourceMask(Carry::Move)),
        Base::F(7) => KeyCommand::AskFolder,
        Base::F(8) => KeyCommand::Open(Opens::Delete),
        Base::F(10) => KeyCommand::Quit,
        _ => KeyCommand::Nothing,
    }
}

/// The key, or one that is unknown where it has meta.
pub fn plain_base(key: Key) -> Base
    ensures { result ≡ plain_base_of key }
{
    if key.meta { Base::Unknown } else { key.base }
}
