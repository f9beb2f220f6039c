//! What stands on the screen while a file is edited: its text, what asks over it, and a message over all.
#![tactic(auto)]

mod act;
mod answer;
mod asking;
mod command;
mod frame;
mod leaving;
mod marking;
mod message;
mod mode;
mod number;
mod opening;
mod reading;
mod saving;

pub use act::{EditorAct, EditorAsks};
pub use answer::Answer;
pub use asking::{AskedLine, Asking, Question};
pub use command::{EditorCommand, editor_command};
pub use leaving::LeavingReply;
pub use mode::EditorMode;
pub use opening::{Opening, open_or_begin, open_path, open_thing};
pub use saving::Saving;
