//! What a message says of a refusal.
ghost use Rattle.std.specs.Prelude.{◌≡◌, ◌∷◌, [], IfOk};
ghost use Rattle.ui_editor.specs.EditorFrames.{refusal_words as words_of};

use mc_edit::EditError;
use mc_text::{NoMemory, Rows, Text};
use std::alloc::Global;

/// The lines of a message.
pub fn message_lines(alloc: Global, why: EditError) -> Result<Rows, NoMemory>
    ensures { IfOk result (λ lines. lines ≡ words_of why ∷ []) }
{
    let mut lines = Rows::new(alloc);
    lines.push(Text::from_str(alloc, refusal_words(why))?)?;
    Ok(lines)
}

/// What is said of a refusal.
fn refusal_words(why: EditError) -> &'static str
    ensures { result.now ≡ words_of why }
{
    match why {
        EditError::TooLarge(_) => "too large",
        EditError::NoBlock => "no block",
        EditError::NotFound => "not found",
        EditError::NothingToUndo => "nothing to undo",
        EditError::NothingToRedo => "nothing to redo",
        EditError::Memory => "out of memory",
    }
}
