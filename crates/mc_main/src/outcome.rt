//! What a run leaves.
use session_log::History;

/// What a run leaves: its status, the devices, and the history of its session.
#[derive(Drop)]
pub struct Outcome<T, S, P> {
    pub status: u8,
    pub tree: T,
    pub screen: S,
    pub spawner: P,
    pub history: History,
}
