//! Trees for rows: what is to stand in them is spelled line by line. What can't be made is noted on the
//! page. And what the steps of a job report, in words.
#![tactic(auto)]

mod blocks;
mod paths;
mod planting;
mod putting;
mod reports;
mod things;

pub use blocks::{Blocks, tell_blocks};
pub use paths::{path_of, path_spelled, tell_path};
pub use planting::{move_thing, plant, plant_file, plant_folder, plant_link, set_mode};
pub use putting::{fresh, put_file, put_folder, put_link, put_other};
pub use reports::{tell_of, tell_report, tell_step};
pub use things::{Things, mode_of, put_things};
