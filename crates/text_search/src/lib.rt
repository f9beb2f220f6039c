//! A regular expression that is sought line by line, in a file that is read part by part.
#![tactic(auto)]

mod error;
mod matcher;
mod regex_of_lines;
mod sought;

pub use error::RegexError;
pub use matcher::{LineMatcher, PART_BYTES};
pub use regex_of_lines::LineRegex;
pub use sought::{Part, Sought};
