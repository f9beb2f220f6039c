//! What the calls on a session answer.
use crate::starts::StartError;
use session_log::History;
use thiserror::Error;

/// A start that was refused gives the devices back.
#[derive(Drop)]
pub struct Refused<T, S, P> {
    pub error: StartError,
    pub tree: T,
    pub screen: S,
    pub spawner: P,
}

/// What the session is to do next: go on, work the foreground job of this number, or end.
#[derive(Clone, Copy, Debug, Drop, PartialEq, Eq)]
pub enum DeskReply {
    Go,
    Wait(u32),
    Quit,
}

/// Why a call on the desk failed. The desk is closed then, unless it ran out of
/// memory and left all as it was.
#[derive(Clone, Copy, Debug, Drop, Error, PartialEq, Eq)]
pub enum DeskError {
    #[error("the screen failed")]
    Screen,
    #[error("out of memory")]
    Memory,
}

/// What a step came to: an entry was added, or no job is ready, and then whether the desk is closed.
#[derive(Clone, Copy, Debug, Drop, PartialEq, Eq)]
pub enum StepReply {
    Did,
    Idle,
    Ended,
}

/// What a session leaves: its devices, its history, and whether the end was asked, the screen
/// failed, or a key was lost.
#[derive(Drop)]
pub struct Ended<T, S, P> {
    pub tree: T,
    pub screen: S,
    pub spawner: P,
    pub history: History,
    pub quit: bool,
    pub failed: bool,
    pub lost: bool,
}
