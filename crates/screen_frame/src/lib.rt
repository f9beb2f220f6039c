//! The frames of the screen: two panels, or a page of the viewer or the editor.
#![tactic(auto)]

mod cutting;
mod jobs_line;
mod key_bar;
mod page;
mod pane;
mod panels;
mod panes;
mod writing;

pub use jobs_line::JobCounts;
pub use key_bar::KeyBar;
pub use page::{Page, PageRow, PageRows, Run, paint_page};
pub use panels::paint_panels;
pub use panes::{ListingLine, ListingLines, Pane, Panes, Shape};
