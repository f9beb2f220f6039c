//! What stands on the screen: two panels, the box over them, a file that is viewed, and what
//! keys and looks make of it.
#![tactic(auto)]

mod asks;
mod dialog;
mod frame;
mod panel_command;
mod ui;
mod viewing;

pub use asks::{Ask, KeyAct, Told};
pub use dialog::Dialog;
pub use ui::Ui;
pub use ui_plans::{Choice, JobPlan, choose, plan_carry};
pub use ui_words::{Chosen, Message, resolve_text};
pub use viewing::{Leaving, ViewedFile};
