//! Sources that a job is yet to take up, as they are kept.
use job_reports::{Job, Pair, Transfer};
use mc_text::Names;

/// One source, or several that come of one folder.
#[derive(Debug, Drop)]
pub enum Left {
    /// The plan of one.
    Planned(Job),
    /// What lies in a folder that was merged with the one at its target, and comes to it so: its names, of
    /// which the next one comes last. Behind what is moved comes the removal of the folder itself.
    Children(Transfer, Pair, Names),
}
