//! The box that stands over the panels.
use panel_boxes::PanelBox;
use ui_find::FindMode;
use ui_job_boxes::JobBox;
use ui_job_list::JobList;

/// What stands over the panels.
#[derive(Debug, Drop)]
pub enum Dialog {
    Nothing,
    /// Asks of one job, or tells what it waits with.
    Job(JobBox),
    /// Asks what the panels are to do.
    Panel(PanelBox),
    /// Asks what is to be sought, and lists what was found.
    Find(FindMode),
    /// Lists the live jobs.
    Jobs(JobList),
}
