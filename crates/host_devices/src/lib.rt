//! The real devices but for the files: the keyboard, the screen, the shell and the clock of this machine;
//! and what all devices have in common. What the machine does is trusted; proved is that each device meets
//! its trait, and counts a fault before it answers one.
#![tactic(auto)]

mod cause;
mod device;
mod faults;
mod host_clock;
mod keyboard;
mod read;
mod sh_spawner;
mod stdin_source;
mod stdout_sink;
mod stty;

pub use cause::{answer_of, cause_of, naming_cause_of};
pub use device::Device;
pub use faults::Faults;
pub use host_clock::HostClock;
pub use read::{TURNS, read_once};
pub use sh_spawner::{Sh, ShSpawner};
pub use stdin_source::StdinSource;
pub use stdout_sink::{Stdout, StdoutSink};
pub use stty::size_in;
