//! Why a text is no name and no path, and want of memory.
use std::alloc::{AllocError, AllocFailed};
use thiserror::Error;

/// No memory was left. What was asked for is not done, and nothing has changed.
#[derive(Clone, Copy, Debug, Drop, Error, PartialEq, Eq)]
#[error("out of memory")]
pub struct NoMemory;

impl From<AllocError> for NoMemory {
    fn from(_error: AllocError) -> NoMemory {
        NoMemory
    }
}

impl<T: Drop> From<AllocFailed<T>> for NoMemory {
    fn from(_error: AllocFailed<T>) -> NoMemory {
        NoMemory
    }
}

/// Why a text is no file name. `TooLong` has its bytes, `Slash` and `Nul` the
/// position of the first such byte.
#[derive(Clone, Copy, Debug, Drop, Error, PartialEq, Eq)]
pub enum NameError {
    #[error("empty name")]
    Empty,
    #[error("a name of {0} bytes is too long")]
    TooLong(usize),
    #[error("a slash at byte {0}")]
    Slash(usize),
    #[error("a NUL at byte {0}")]
    Nul(usize),
    #[error("dots are no name")]
    Dots,
    #[error("out of memory")]
    Memory,
}

impl From<AllocError> for NameError {
    ghost use Rattle.std.specs.Prelude.{◌≡◌};
    ghost use Rattle.mc_text.specs.declared.error.NameError.TheVariants.{Memory};

    ghost from_gives = { λ _ error. error ≡ Memory };

    fn from(_error: AllocError) -> NameError {
        NameError::Memory
    }
}

/// Why a text is no absolute path. `TooLong` has the bytes that the path would have, `BadName` the position
/// of the first byte of the first component that is no name.
#[derive(Clone, Copy, Debug, Drop, Error, PartialEq, Eq)]
pub enum PathError {
    #[error("not an absolute path")]
    NotAbsolute,
    #[error("a path of {0} bytes is too long")]
    TooLong(usize),
    #[error("no name at byte {0}")]
    BadName(usize),
    #[error("out of memory")]
    Memory,
}

impl From<AllocError> for PathError {
    ghost use Rattle.std.specs.Prelude.{◌≡◌};
    ghost use Rattle.mc_text.specs.declared.error.PathError.TheVariants.{Memory};

    ghost from_gives = { λ _ error. error ≡ Memory };

    fn from(_error: AllocError) -> PathError {
        PathError::Memory
    }
}

impl From<NoMemory> for PathError {
    ghost use Rattle.std.specs.Prelude.{◌≡◌};
    ghost use Rattle.mc_text.specs.declared.error.PathError.TheVariants.{Memory};

    ghost from_gives = { λ _ error. error ≡ Memory };

    fn from(_error: NoMemory) -> PathError {
        PathError::Memory
    }
}

impl<T: Drop> From<AllocFailed<T>> for NameError {
    ghost use Rattle.std.specs.Prelude.{◌≡◌};
    ghost use Rattle.mc_text.specs.declared.error.NameError.TheVariants.{Memory};

    ghost from_gives = { λ _ error. error ≡ Memory };

    fn from(_error: AllocFailed<T>) -> NameError {
        NameError::Memory
    }
}

impl<T: Drop> From<AllocFailed<T>> for PathError {
    ghost use Rattle.std.specs.Prelude.{◌≡◌};
    ghost use Rattle.mc_text.specs.declared.error.PathError.TheVariants.{Memory};

    ghost from_gives = { λ _ error. error ≡ Memory };

    fn from(_error: AllocFailed<T>) -> PathError {
        PathError::Memory
    }
}
