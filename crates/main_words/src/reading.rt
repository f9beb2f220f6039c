//! The words are read by the command, and then tried by the rules that it doesn't know.
ghost use Rattle.std.specs.Prelude.{◌≡◌, Err, None, Some, IfOk, option_map};
ghost use Rattle.main_words.specs.Asked.{asked_by, at_most_one as one_at_most, is_count as is_count_text};

use crate::command::given_by;
use crate::folders::{named_path, panel_folder};
use crate::numbers::number_of;
use crate::words::{Words, WordsError};
use mc_text::{Path, Text};
use std::alloc::Global;

/// Reads the words. A relative path is below `started`, the folder in which the program was started.
pub fn read_words(alloc: Global, words: &[Text], started: &Path) -> Result<Words, WordsError>
    ensures read { IfOk result (λ asked. asked_by started.now words.now ≡ Some asked) }
    ensures usage { result ≡ Err WordsError.Usage → asked_by started.now words.now ≡ None }
{
    let given = given_by(alloc, words)?;
    let views = given.view.is_some();
    let edits = given.edit.is_some();
    let drills = given.drill.is_some();
    if !at_most_one(views, edits, drills, given.left.is_some()) || !is_count(given.drill) {
        return Err(WordsError::Usage);
    }
    if given.wants_help {
        return Ok(Words::Help);
    }
    if given.wants_version {
        return Ok(Words::Version);
    }
    if edits || given.place.is_some() || drills {
        return Ok(Words::NotBuilt);
    }
    match given.view {
        Some(word) => {
            let file = named_path(alloc, started, word)?;
            Ok(Words::View(file))
        }
        None => {
            let left = panel_folder(alloc, started, given.left)?;
            let right = panel_folder(alloc, started, given.right)?;
            Ok(Words::Panels { left, right })
        }
    }
}

/// Whether one of these holds at most.
fn at_most_one(first: bool, second: bool, third: bool, fourth: bool) -> bool
    ensures { result ≡ one_at_most first second third fourth }
{
    u8::from(first) + u8::from(second) + u8::from(third) + u8::from(fourth) < 2
}

/// Whether the N of a drill can be read, where there is one.
fn is_count(word: Option<&str>) -> bool
    ensures { result ≡ is_count_text (option_map (λ text. text.now) word.entry) }
{
    match word {
        Some(text) => number_of(text, 10).is_some(),
        None => true,
    }
}
