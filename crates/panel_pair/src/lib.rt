//! The two panels of a session: which of them is current, what each command of the panels makes of them,
//! and what the frame shows of them.
#![tactic(auto)]

mod command;
mod frame;
mod keys;
mod looking;
mod opening;
mod panels;
mod selecting;
mod side;
mod working;

pub use command::PanelCommand;
pub use frame::{FrameSize, page_of};
pub use keys::key_command;
pub use looking::{Reread, Unread};
pub use opening::Unopened;
pub use panels::Panels;
pub use side::Side;
