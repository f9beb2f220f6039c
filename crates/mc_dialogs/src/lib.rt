//! The boxes that ask: how each answers a key, and how it is painted over a screen.
#![tactic(auto)]

mod clusters;
mod field;
mod frame;
mod input_line;
mod key_lists;
mod list_box;
mod list_painting;
mod mode_box;
mod question_box;
mod shut;

pub use frame::{Line, paint_box};
pub use input_line::InputLine;
pub use list_box::{ListBox, moved, scrolled};
pub use list_painting::{paint_list, rows_from};
pub use mode_box::ModeBox;
pub use question_box::{QuestionBox, answer_by_letters, plain_lines};
pub use shut::{Reply, Shut};
