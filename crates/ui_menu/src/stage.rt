//! What the menu is at.
use crate::prompts::Prompts;

/// What the menu is at.
#[derive(Debug, Drop)]
pub enum Stage {
    /// An entry is to be chosen.
    Choosing,
    /// The prompts of the chosen entry's command are asked.
    Prompting(Prompts),
    /// A command was handed out, or the menu was left: no key hands out another.
    Ended,
}
