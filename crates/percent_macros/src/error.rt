//! Why a command isn't expanded.
use mc_text::NoMemory;
use thiserror::Error;

/// Why a command isn't expanded: the position of the percent of the first macro that is none, or
/// whose `{` nothing closes.
#[derive(Clone, Copy, Debug, Drop, Error, PartialEq, Eq)]
pub enum MacroError {
    #[error("no macro at byte {0}")]
    UnknownMacro(usize),
    #[error("no }} for the prompt at byte {0}")]
    OpenBrace(usize),
    #[error("out of memory")]
    Memory,
}

impl From<NoMemory> for MacroError {
    ghost use Rattle.std.specs.Prelude.{◌≡◌};
    ghost use Rattle.percent_macros.specs.declared.error.MacroError.TheVariants.{Memory};

    ghost from_gives = { λ _ error. error ≡ Memory };

    fn from(_error: NoMemory) -> MacroError {
        MacroError::Memory
    }
}
