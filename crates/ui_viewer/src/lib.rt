//! What stands on the screen while a file is viewed: a page of it, a line that asks over
//! it, and a message over all.
#![tactic(auto)]

mod act;
mod asking;
mod command;
mod frame;
mod message;
mod mode;
mod motion;
mod number;
mod opening;

pub use act::ViewerAct;
pub use asking::{Asking, Question};
pub use command::{ViewerCommand, viewer_command};
pub use mode::ViewerMode;
pub use motion::Motion;
pub use opening::{Opening, open_thing};
