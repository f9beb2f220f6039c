//! Why a viewer refuses.
use mc_text::NoMemory;
use std::alloc::AllocError;
use thiserror::Error;
use tree_trait::TreeError;

/// Why a viewer refuses. `Tree` never has want of memory, which is an error of its own; `LineTooLong` has
/// the place where the line begins.
#[derive(Clone, Copy, Debug, Drop, Error, PartialEq, Eq)]
pub enum ViewError {
    #[error("{0}")]
    Tree(TreeError),
    #[error("not found")]
    NotFound,
    #[error("bad pattern")]
    BadPattern,
    #[error("line too long")]
    LineTooLong(u64),
    #[error("out of memory")]
    Memory,
}

impl From<TreeError> for ViewError {
    ghost use Rattle.std.specs.Prelude.{◌≡◌};
    ghost use Rattle.mc_viewer.specs.Viewing.{refused_with};

    ghost from_gives = { λ given error. error ≡ refused_with given };

    fn from(error: TreeError) -> ViewError {
        match error {
            TreeError::Memory => ViewError::Memory,
            other => ViewError::Tree(other),
        }
    }
}

impl From<AllocError> for ViewError {
    ghost use Rattle.std.specs.Prelude.{◌≡◌};
    ghost use Rattle.mc_viewer.specs.declared.error.ViewError.TheVariants.{Memory};

    ghost from_gives = { λ _ error. error ≡ Memory };

    fn from(_error: AllocError) -> ViewError {
        ViewError::Memory
    }
}

impl From<NoMemory> for ViewError {
    ghost use Rattle.std.specs.Prelude.{◌≡◌};
    ghost use Rattle.mc_viewer.specs.declared.error.ViewError.TheVariants.{Memory};

    ghost from_gives = { λ _ error. error ≡ Memory };

    fn from(_error: NoMemory) -> ViewError {
        ViewError::Memory
    }
}
