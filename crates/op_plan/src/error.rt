//! Why a job must not be begun.
use mc_text::{NoMemory, Path};
use resolving::ResolveError;
use std::alloc::{AllocError, AllocFailed};
use thiserror::Error;
use tree_trait::TreeError;

/// Why a job must not be begun, in the order in which it is found out.
#[derive(Debug, Drop, Error)]
pub enum PlanError {
    /// There is no source, or none that the mask matches.
    #[error("nothing selected")]
    NoSelection,
    /// The second source is the first one, lies in it, or holds it.
    #[error("one lies in the other")]
    Nested(Path, Path),
    /// The tree refuses a look at this source.
    #[error("{1}")]
    Source(Path, TreeError),
    /// A mask can't be read, asks for what the other doesn't take, or makes no name.
    #[error("bad mask")]
    BadMask,
    /// The target's folder isn't found, or the target's path is too long.
    #[error("{0}")]
    Target(ResolveError),
    /// Something stands where a folder or a link is to be made.
    #[error("already there")]
    TargetThere(Path),
    /// This source is its own target.
    #[error("same file")]
    SameFile(Path),
    /// The source is a target or lies in one, or holds one, which is this.
    #[error("inside itself")]
    IntoItself(Path, Path),
    /// These sources have one target.
    #[error("two files, one target")]
    TwoToOne(Path, Path),
    /// A link can't say this.
    #[error("bad link text")]
    BadLinkText,
    #[error("out of memory")]
    Memory,
}

impl<T: Drop> From<AllocFailed<T>> for PlanError {
    ghost use Rattle.std.specs.Prelude.{◌≡◌};
    ghost use Rattle.op_plan.specs.declared.error.PlanError.TheVariants.{Memory};

    ghost from_gives = { λ _ error. error ≡ Memory };

    fn from(_error: AllocFailed<T>) -> PlanError {
        PlanError::from(NoMemory)
    }
}

impl From<AllocError> for PlanError {
    ghost use Rattle.std.specs.Prelude.{◌≡◌};
    ghost use Rattle.op_plan.specs.declared.error.PlanError.TheVariants.{Memory};

    ghost from_gives = { λ _ error. error ≡ Memory };

    fn from(_error: AllocError) -> PlanError {
        PlanError::from(NoMemory)
    }
}

impl From<NoMemory> for PlanError {
    ghost use Rattle.std.specs.Prelude.{◌≡◌};
    ghost use Rattle.op_plan.specs.declared.error.PlanError.TheVariants.{Memory};

    ghost from_gives = { λ _ error. error ≡ Memory };

    fn from(_error: NoMemory) -> PlanError {
        PlanError::Memory
    }
}
