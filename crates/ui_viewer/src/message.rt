//! What a message says of a refusal.
ghost use Rattle.std.specs.Prelude.{◌≡◌, ◌∷◌, [], ◌<◌, ◌^◌, length, IfOk};
ghost use Rattle.ui_viewer.specs.ViewerFrames.{message_lines as lines_of_message};

use mc_text::{NoMemory, Rows, Text};
use mc_viewer::ViewError;
use std::alloc::Global;
use tree_trait::TreeError;
use ui_words::{cause_text, cut_in_front};

/// The lines of a message, of so many columns: what is said, and of a refusal of the tree the file that it is
/// said of.
pub fn message_lines(
    alloc: Global,
    columns: usize,
    title: &Text,
    why: ViewError,
) -> Result<Rows, NoMemory>
    ensures { IfOk result (λ lines. lines ≡ lines_of_message columns title.now why) }
{
    match why {
        ViewError::Tree(error) => refused_lines(alloc, columns, title, error),
        ViewError::NotFound => words_alone(alloc, "not found"),
        ViewError::BadPattern => words_alone(alloc, "bad pattern"),
        ViewError::LineTooLong(_) => words_alone(alloc, "line too long"),
        ViewError::Memory => words_alone(alloc, "out of memory"),
    }
}

fn refused_lines(
    alloc: Global,
    columns: usize,
    title: &Text,
    error: TreeError,
) -> Result<Rows, NoMemory>
    ensures { IfOk result (λ lines. lines ≡ lines_of_message columns title.now (ViewError.Tree error)) }
{
    let mut lines = words_alone(alloc, cause_text(error))?;
    lines.push(cut_in_front(alloc, title.copy(alloc)?, columns)?)?;
    Ok(lines)
}

fn words_alone(alloc: Global, words: &str) -> Result<Rows, NoMemory>
    ensures { IfOk result (λ lines. lines ≡ words.now ∷ []) }
{
    let mut lines = Rows::new(alloc);
    lines.push(Text::from_str(alloc, words)?)?;
    Ok(lines)
}
