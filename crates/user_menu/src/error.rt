//! Why a file holds no menu.
use mc_text::NoMemory;
use thiserror::Error;

/// Why a file holds no menu. `NotText` has the position of the first byte that is no UTF-8, the others a
/// line, counted from 1: of a command before any title, of a condition that is none.
#[derive(Clone, Copy, Debug, Drop, Error, PartialEq, Eq)]
pub enum MenuError {
    #[error("no text at byte {0}")]
    NotText(usize),
    #[error("line {0} is a command before any title")]
    CommandBeforeTitle(usize),
    #[error("line {0} has no condition")]
    BadCondition(usize),
    #[error("out of memory")]
    Memory,
}

impl From<NoMemory> for MenuError {
    ghost use Rattle.std.specs.Prelude.{◌≡◌};
    ghost use Rattle.user_menu.specs.declared.error.MenuError.TheVariants.{Memory};

    ghost from_gives = { λ _ error. error ≡ Memory };

    fn from(_error: NoMemory) -> MenuError {
        MenuError::Memory
    }
}
