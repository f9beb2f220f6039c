//! Why a text can't be resolved.
use mc_text::{NoMemory, Path};
use thiserror::Error;
use tree_trait::TreeError;

/// Why a text can't be resolved. `Tree` has the path that the tree refused, and why; it never has a fault
/// or want of memory, which are errors of their own.
#[derive(Debug, Drop, Error)]
pub enum ResolveError {
    #[error("{1}")]
    Tree(Path, TreeError),
    #[error("too many links")]
    TooManyLinks,
    #[error("path too long")]
    TooLong,
    #[error("bad name")]
    BadName,
    #[error("device fault")]
    Fault,
    #[error("out of memory")]
    Memory,
}

impl From<NoMemory> for ResolveError {
    ghost use Rattle.std.specs.Prelude.{◌≡◌};
    ghost use Rattle.resolving.specs.declared.error.ResolveError.TheVariants.{Memory};

    ghost from_gives = { λ _ error. error ≡ Memory };

    fn from(_error: NoMemory) -> ResolveError {
        ResolveError::Memory
    }
}
