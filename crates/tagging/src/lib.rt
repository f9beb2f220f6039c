//! Shell patterns with their captures, regular expressions over names, tags, and the
//! comparison of two folders.
#![tactic(auto)]

mod bracket;
mod captures;
mod compare;
mod error;
mod first_char;
mod glob;
mod keep;
mod parse;
mod pattern;
mod regex_name;
mod tags;
mod typed;
mod walk;

pub use bracket::{BracketSet, Span};
pub use compare::{FileFact, Stamp, compare_quick};
pub use error::PatternError;
pub use glob::{GlobPart, ShellPattern};
pub use pattern::{Pattern, PatternKind};
pub use tags::Tags;
pub use typed::pattern_in;
