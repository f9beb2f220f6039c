//! What a key comes to.
use mc_text::Path;
use resolving::ResolveError;

/// What a key comes to, while things are sought.
#[derive(Debug, Drop)]
pub enum FindAct {
    /// It is asked or sought on.
    Stays,
    /// What was typed can't be taken. The line stays, so that it can be mended.
    Refused(FindRefusal),
    /// The search is left for the thing at this path.
    Goes(Path),
    /// The search is left.
    Leaves,
}

/// Why what was typed can't be taken.
#[derive(Debug, Drop)]
pub enum FindRefusal {
    /// No way leads to the start. Never for want of memory, which is an error of its own.
    NoWay(ResolveError),
    /// It is no pattern.
    NoPattern,
}
