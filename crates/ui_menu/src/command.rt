//! A command that is to be run.
ghost use Rattle.std.specs.Prelude.{◌≡◌, length, IfOk};
ghost use Rattle.percent_macros.specs.Commands.{prompts_in};
ghost use Rattle.ui_menu.specs.Commands.{command_of};

use mc_text::{NoMemory, Path, Text, Texts};
use percent_macros::Expanded;
use std::alloc::Global;

/// A command that is to be run.
#[derive(Debug, Drop)]
pub struct Command {
    pub text: Text,
    /// Where it is run: the folder of the panel in which it was asked for.
    pub folder: Path,
    /// The tagged names of that panel are untagged when it is run.
    pub untag_here: bool,
    /// Those of the other panel are.
    pub untag_other: bool,
}

/// A command with these answers to its prompts, to be run in a folder.
pub fn answered(
    alloc: Global,
    expanded: &Expanded,
    answers: &Texts,
    folder: &Path,
) -> Result<Command, NoMemory>
    requires { length answers.now ≡ prompts_in expanded.now.pieces }
    ensures { IfOk result (λ command. command ≡ command_of expanded.now answers.now folder.now) }
{
    Ok(Command {
        text: expanded.command(alloc, answers)?,
        folder: folder.copy(alloc)?,
        untag_here: expanded.untag_here,
        untag_other: expanded.untag_other,
    })
}
