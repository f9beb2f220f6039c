//! A session over its devices: its screen, keys, one job at a time, and the history of it all.
#![tactic(auto)]

mod carrying;
mod claims;
mod confirmed;
mod desk;
mod drawing;
mod granting;
mod opening;
mod replies;
mod rows;
mod seeking;
mod session;
mod standing;
mod starts;
mod tag;
mod terminal;

pub use desk::Desk;
pub use mc_ui::{
    Ask, Choice, Chosen, Dialog, JobPlan, KeyAct, Told, Ui, choose, plan_carry, resolve_text,
};
pub use panel_pair::Side;
pub use replies::{DeskError, DeskReply, Ended, Refused, StepReply};
pub use seeking::STOP_BYTE;
pub use starts::{Start, StartError, StartMode, StartPlace};
pub use tag::Tag;
