//! Why a command is refused.
use mc_text::NoMemory;
use thiserror::Error;

/// `TooLarge` has the bytes that the text would have.
#[derive(Clone, Copy, Debug, Drop, Error, PartialEq, Eq)]
pub enum EditError {
    #[error("a text of {0} bytes is too large")]
    TooLarge(u64),
    #[error("no block")]
    NoBlock,
    #[error("not found")]
    NotFound,
    #[error("nothing to undo")]
    NothingToUndo,
    #[error("nothing to redo")]
    NothingToRedo,
    #[error("out of memory")]
    Memory,
}

impl From<NoMemory> for EditError {
    ghost use Rattle.std.specs.Prelude.{◌≡◌};
    ghost use Rattle.mc_edit.specs.declared.error.EditError.TheVariants.{Memory};

    ghost from_gives = { λ _ error. error ≡ Memory };

    fn from(_error: NoMemory) -> EditError {
        EditError::Memory
    }
}
