//! Why a text is no pattern.
use std::alloc::{AllocError, AllocFailed};
use thiserror::Error;

/// Why a text is no pattern. `OpenBracket` has the byte of a `[` that nothing closes,
/// `TrailingBackslash` the byte of a backslash that ends the text; both are of shell patterns.
/// `BadPattern` is of regular expressions.
#[derive(Clone, Copy, Debug, Drop, Error, PartialEq, Eq)]
pub enum PatternError {
    #[error("no ] for the [ at byte {0}")]
    OpenBracket(usize),
    #[error("a backslash at the end, byte {0}")]
    TrailingBackslash(usize),
    #[error("no regular expression")]
    BadPattern,
    #[error("out of memory")]
    Memory,
}

impl From<AllocError> for PatternError {
    ghost use Rattle.std.specs.Prelude.{◌≡◌};
    ghost use Rattle.tagging.specs.declared.error.PatternError.TheVariants.{Memory};

    ghost from_gives = { λ _ error. error ≡ Memory };

    fn from(_error: AllocError) -> PatternError {
        PatternError::Memory
    }
}

impl<T: Drop> From<AllocFailed<T>> for PatternError {
    ghost use Rattle.std.specs.Prelude.{◌≡◌};
    ghost use Rattle.tagging.specs.declared.error.PatternError.TheVariants.{Memory};

    ghost from_gives = { λ _ error. error ≡ Memory };

    fn from(_error: AllocFailed<T>) -> PatternError {
        PatternError::Memory
    }
}
