//! The screen: the frame that was drawn last, and the bytes that draw what differs in the next one.
#![tactic(auto)]

mod changes;
mod laws;
mod screen;
mod strokes;

pub use laws::a_blank_terminal_shows_a_blank_screen;
pub use screen::Screen;
