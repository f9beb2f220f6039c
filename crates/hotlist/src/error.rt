//! Why a file is no hotlist, and why a list can't be changed so.
use mc_text::NoMemory;
use thiserror::Error;

/// Why a file is no hotlist. `NotText` has the position of the first byte that is no UTF-8, the others a
/// line, counted from 1; `UnclosedGroup` that of the outermost group that is open at the file's end.
#[derive(Clone, Copy, Debug, Drop, Error, PartialEq, Eq)]
pub enum HotError {
    #[error("no text at byte {0}")]
    NotText(usize),
    #[error("line {0} is wrong")]
    BadLine(usize),
    #[error("line {0} nests too deep")]
    TooDeep(usize),
    #[error("the group of line {0} has no end")]
    UnclosedGroup(usize),
    #[error("out of memory")]
    Memory,
}

impl From<NoMemory> for HotError {
    ghost use Rattle.std.specs.Prelude.{◌≡◌};
    ghost use Rattle.hotlist.specs.declared.error.HotError.TheVariants.{Memory};

    ghost from_gives = { λ _ error. error ≡ Memory };

    fn from(_error: NoMemory) -> HotError {
        HotError::Memory
    }
}

/// Why an item isn't added: no group stands at the place, groups would nest to more than 32, or want of
/// memory. The list is as it was, and the item is dropped.
#[derive(Clone, Copy, Debug, Drop, Error, PartialEq, Eq)]
pub enum HotEditError {
    #[error("no group there")]
    NoSuchGroup,
    #[error("groups nest too deep")]
    TooDeep,
    #[error("out of memory")]
    Memory,
}

impl From<NoMemory> for HotEditError {
    ghost use Rattle.std.specs.Prelude.{◌≡◌};
    ghost use Rattle.hotlist.specs.declared.error.HotEditError.TheVariants.{Memory};

    ghost from_gives = { λ _ error. error ≡ Memory };

    fn from(_error: NoMemory) -> HotEditError {
        HotEditError::Memory
    }
}
