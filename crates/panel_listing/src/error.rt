//! Why a text is no format.
use mc_text::NoMemory;
use thiserror::Error;

/// Why a text is no format, with the byte where the fault stands: `NoSize` always the first, `UnknownField`
/// the first of the field, `BadWidth` the one behind the colon.
#[derive(Clone, Copy, Debug, Drop, Error, PartialEq, Eq)]
pub enum FormatError {
    #[error("neither half nor full at byte {0}")]
    NoSize(usize),
    #[error("no field at byte {0}")]
    UnknownField(usize),
    #[error("no width at byte {0}")]
    BadWidth(usize),
    #[error("out of memory")]
    Memory,
}

impl From<NoMemory> for FormatError {
    ghost use Rattle.std.specs.Prelude.{◌≡◌};
    ghost use Rattle.panel_listing.specs.declared.error.FormatError.TheVariants.{Memory};

    ghost from_gives = { λ _ error. error ≡ Memory };

    fn from(_error: NoMemory) -> FormatError {
        FormatError::Memory
    }
}
