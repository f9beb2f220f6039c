//! What is sought, and what was found.
use crate::state::State;
use mc_text::{Bytes, Text};

/// What is sought: bytes, or a regular expression over lines.
#[derive(Debug, Drop)]
pub enum Search {
    Plain(Bytes),
    Regex(Text),
}

/// What was found last, and where.
#[derive(Debug, Drop)]
pub struct Hit {
    pub what: Search,
    pub place: u64,
}

/// Where a viewer stands after a search, and the place that was found.
#[derive(Clone, Copy, Debug, Drop)]
pub struct Landing {
    pub state: State,
    pub place: u64,
}
