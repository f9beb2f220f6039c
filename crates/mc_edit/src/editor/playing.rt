//! Commands one after another.
ghost use Rattle.std.specs.Prelude.{◌≡◌, OnOk, OnErr};
ghost use Rattle.mc_edit.specs.Commands.{after_command};
ghost use Rattle.mc_edit.specs.CommandLists.{or_same, after_commands};

use super::Editor;
use crate::command::EditCmd;
use crate::error::EditError;
use mc_text::NoMemory;
use std::alloc::Global;

impl Editor {
    /// Carries commands out in their order; a refused one changes nothing, and the next one follows. It
    /// stops where memory is short.
    pub fn commands(&mut self, alloc: Global, commands: &[EditCmd]) -> Result<(), NoMemory>
        ensures done { OnOk result (self.new ≡ after_commands commands.now self.old) }
    {
        let mut left = commands;
        while let Some((first, later)) = left.split_first() {
            self.command_or_not(alloc, first)?;
            left = later;
        }
        Ok(())
    }

    /// Carries a command out, unless it is refused.
    fn command_or_not(&mut self, alloc: Global, cmd: &EditCmd) -> Result<(), NoMemory>
        ensures done { OnOk result (self.new ≡ or_same (after_command cmd.now self.old) self.old) }
        ensures same { OnErr result (self.new ≡ self.old) }
    {
        match self.command(alloc, cmd) {
            Ok(()) => Ok(()),
            Err(EditError::Memory) => Err(NoMemory),
            Err(_other) => Ok(()),
        }
    }
}
