//! The devices of a session in memory but for the tree: keys that come, a screen, a shell, a clock; and
//! what makes any device tell nothing.
#![tactic(auto)]

mod clock;
mod mute;
mod sink;
mod source;
mod spawner;

pub use clock::FixedClock;
pub use mute::Mute;
pub use sink::MemSink;
pub use source::MemSource;
pub use spawner::{FakeSpawner, Outcomes};
