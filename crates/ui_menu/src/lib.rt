//! The user's menu on the screen: the box that lists the shown entries, and the prompts of the command that
//! is chosen. Also the prompts of any other command.
#![tactic(auto)]

mod act;
mod asking;
mod beginning;
mod command;
mod menu_mode;
mod opening;
mod painting;
mod prompts;
mod questions;
mod rows;
mod stage;

pub use act::{Beginning, MenuAct, PromptAct};
pub use beginning::begin_command;
pub use command::Command;
pub use menu_mode::MenuMode;
pub use prompts::Prompts;
pub use stage::Stage;
