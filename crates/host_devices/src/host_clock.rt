//! The clock of the machine.
use std::time::{SystemTime, UNIX_EPOCH};
use tree_trait::Clock;

/// The time of day. A clock that doesn't answer, or that stands before 1970, reads 0.
#[derive(Drop)]
pub struct HostClock<R> {
    rt: R,
}

impl<R> HostClock<R> {
    /// The clock that this runtime reaches. It takes no memory.
    pub fn new(rt: R) -> HostClock<R> {
        HostClock { rt }
    }
}

impl<R: std::rt::Clock> Clock for HostClock<R> {
    fn now(&self) -> u64 {
        let Ok(time) = SystemTime::now(&self.rt) else {
            return 0;
        };
        match time.duration_since(UNIX_EPOCH) {
            Ok(since) => since.as_secs(),
            Err(_) => 0,
        }
    }
}
