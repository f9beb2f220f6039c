//! Why a text isn't compiled.
use std::alloc::AllocError;
use thiserror::Error;

/// Why a text isn't compiled: it is no regular expression, or it is one whose tables would pass the
/// limit, or memory is wanting.
#[derive(Clone, Copy, Debug, Drop, Error, PartialEq, Eq)]
pub enum RegexError {
    #[error("no regular expression")]
    BadPattern,
    #[error("regular expression too big")]
    TooBig,
    #[error("out of memory")]
    Memory,
}

impl From<AllocError> for RegexError {
    ghost use Rattle.std.specs.Prelude.{◌≡◌};
    ghost use Rattle.text_search.specs.declared.error.RegexError.TheVariants.{Memory};

    ghost from_gives = { λ _ error. error ≡ Memory };

    fn from(_error: AllocError) -> RegexError {
        RegexError::Memory
    }
}
