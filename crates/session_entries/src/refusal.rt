//! What a key or a look wanted and was refused.
ghost use Rattle.std.specs.Prelude.{◌≡◌, IfOk};

use mc_text::{NoMemory, Path};
use resolving::ResolveError;
use std::alloc::Global;
use std::marker::Model;
use tree_trait::TreeError;

/// Why a plan could not be made.
#[derive(Debug, Drop)]
pub enum PlanError {
    /// Nothing is selected: the cursor stands on `..`, or on no row; or the source mask leaves out what is.
    NoSelection,
    /// The path of one of the selected things would have more than 4,096 bytes.
    TooLong,
    /// The second source is the first one, lies in it, or holds it.
    Nested(Path, Path),
    /// The look at this source is refused.
    Source(Path, TreeError),
    /// The source mask is no pattern, the destination asks for what it doesn't take, or what
    /// was typed makes no name.
    BadMask,
    /// No way leads to the target's folder, nothing can be seen of the target, or its path would
    /// have more than 4,096 bytes.
    Target(ResolveError),
    /// Something stands at the target.
    TargetThere(Path),
    /// This source is its own target.
    SameFile(Path),
    /// The source lies in its target, or the target in it.
    IntoItself(Path, Path),
    /// These sources have one target.
    TwoToOne(Path, Path),
    /// A link can't say this.
    BadLinkText,
}

impl PlanError {
    /// The same once more.
    pub fn copy(&self, alloc: Global) -> Result<PlanError, NoMemory>
        ensures { IfOk result (λ copy. copy ≡ self.now) }
    {
        match self {
            PlanError::NoSelection => Ok(PlanError::NoSelection),
            PlanError::TooLong => Ok(PlanError::TooLong),
            PlanError::Nested(first, second) => {
                Ok(PlanError::Nested(first.copy(alloc)?, second.copy(alloc)?))
            }
            PlanError::Source(path, error) => Ok(PlanError::Source(path.copy(alloc)?, *error)),
            PlanError::BadMask => Ok(PlanError::BadMask),
            PlanError::Target(error) => Ok(PlanError::Target(copy_of(alloc, error)?)),
            PlanError::TargetThere(path) => Ok(PlanError::TargetThere(path.copy(alloc)?)),
            PlanError::SameFile(path) => Ok(PlanError::SameFile(path.copy(alloc)?)),
            PlanError::IntoItself(source, target) => {
                Ok(PlanError::IntoItself(source.copy(alloc)?, target.copy(alloc)?))
            }
            PlanError::TwoToOne(first, second) => {
                Ok(PlanError::TwoToOne(first.copy(alloc)?, second.copy(alloc)?))
            }
            PlanError::BadLinkText => Ok(PlanError::BadLinkText),
        }
    }
}

/// Why a job could not be begun.
#[derive(Clone, Copy, Debug, Drop, PartialEq, Eq)]
pub enum BeginError {
    /// As many jobs are live as may be: today one.
    Full,
    /// All numbers of jobs were given: there are 2^32 - 1, and none is given twice.
    NoMoreIds,
}

/// Why what was typed in a box can't be taken.
#[derive(Clone, Copy, Debug, Drop, PartialEq, Eq)]
pub enum TypedError {
    /// It is no pattern.
    BadPattern,
    /// It is no format: this byte of it is at fault.
    BadFormat(usize),
    /// It ends in no name.
    BadName,
}

/// What a key or a look wanted and was refused.
#[derive(Debug, Drop)]
pub enum Refusal {
    /// This look at a path.
    Tree(Path, TreeError),
    /// The reading of this file.
    Read(Path, TreeError),
    /// The reading of a folder, or the way to it.
    Resolve(ResolveError),
    /// This plan of a job.
    Plan(PlanError),
    /// The beginning of a job.
    Begin(BeginError),
    /// What was typed.
    Typed(TypedError),
}

impl Refusal {
    /// The same once more.
    pub fn copy(&self, alloc: Global) -> Result<Refusal, NoMemory>
        ensures { IfOk result (λ copy. copy ≡ self.now) }
    {
        match self {
            Refusal::Tree(path, error) => Ok(Refusal::Tree(path.copy(alloc)?, *error)),
            Refusal::Read(path, error) => Ok(Refusal::Read(path.copy(alloc)?, *error)),
            Refusal::Resolve(error) => Refusal::resolve(alloc, error),
            Refusal::Plan(error) => Ok(Refusal::Plan(error.copy(alloc)?)),
            Refusal::Begin(error) => Ok(Refusal::Begin(*error)),
            Refusal::Typed(error) => Ok(Refusal::Typed(*error)),
        }
    }

    /// That a folder could not be read.
    pub fn resolve(alloc: Global, error: &ResolveError) -> Result<Refusal, NoMemory>
        ensures { IfOk result (λ refusal. refusal ≡ Refusal.Resolve error.now) }
    {
        Ok(Refusal::Resolve(copy_of(alloc, error)?))
    }
}

/// The same error once more.
fn copy_of(alloc: Global, error: &ResolveError) -> Result<ResolveError, NoMemory>
    ensures { IfOk result (λ copy. copy ≡ error.now) }
{
    match error {
        ResolveError::Tree(path, cause) => Ok(ResolveError::Tree(path.copy(alloc)?, *cause)),
        ResolveError::TooManyLinks => Ok(ResolveError::TooManyLinks),
        ResolveError::TooLong => Ok(ResolveError::TooLong),
        ResolveError::BadName => Ok(ResolveError::BadName),
        ResolveError::Fault => Ok(ResolveError::Fault),
        ResolveError::Memory => Ok(ResolveError::Memory),
    }
}

/// The refusals of one key or look.
#[derive(Debug, Drop)]
pub struct Refusals(pub Vec<Refusal>);

impl Model for Refusals {
    ghost use Rattle.std.specs.Prelude.{List};
    ghost use Rattle.session_entries.specs.declared.refusal.Refusal.{Refusal};

    ghost Value = { List Refusal };

    ghost view = { λ l. l.0.items };
}
