//! What the program is started with: the words of the command line, and the surroundings.
#![tactic(auto)]

mod command;
mod folders;
mod numbers;
mod reading;
mod size;
mod words;

pub use folders::{StartPath, home_folder, started_folder};
pub use reading::read_words;
pub use size::Size;
pub use words::{Words, WordsError};
