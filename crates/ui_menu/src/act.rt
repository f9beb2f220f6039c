//! What a key comes to.
use crate::command::Command;
use crate::prompts::Prompts;
use percent_macros::MacroError;

/// What a command comes to that is asked for.
#[derive(Debug, Drop)]
pub enum Beginning {
    /// It is to be run.
    Runs(Command),
    /// Its prompts are asked before.
    Asks(Prompts),
    /// A macro of it is none. Never for want of memory, which is an error of its own.
    Refused(MacroError),
}

/// What a key comes to while the prompts of a command are asked.
#[derive(Debug, Drop)]
pub enum PromptAct {
    /// It is asked on.
    Stays,
    /// All is answered: the command is to be run, and nothing asks any more.
    Runs(Command),
    /// The command is dropped.
    Cancels,
}

/// What a key comes to in the user's menu.
#[derive(Debug, Drop)]
pub enum MenuAct {
    /// The list is shown on, or a prompt asks.
    Stays,
    /// The menu is left, and this command is to be run.
    Runs(Command),
    /// A macro of the chosen command is none. The list stays. Never for want of memory, which is an error of
    /// its own.
    Refused(MacroError),
    /// The menu is left, and nothing is run.
    Leaves,
}
