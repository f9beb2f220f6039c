//! A viewer of a file or an output: pages of rows, moves and searches, that read no more
//! of it than they have to.
#![tactic(auto)]

mod above;
mod error;
mod layout;
mod lines;
mod moves;
mod near;
mod pages;
mod passing;
mod reading;
mod rows;
mod search;
mod seeking;
mod state;
mod subject;
mod text;
mod units;
mod viewer;
mod walking;
mod way;
mod window;

pub use error::ViewError;
pub use search::Search;
pub use state::ViewStep;
pub use subject::Subject;
pub use viewer::Viewer;
