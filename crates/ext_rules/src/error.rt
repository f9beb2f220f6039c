//! Why a file holds no rules.
use mc_text::NoMemory;
use thiserror::Error;

/// Why a file holds no rules. `NotText` has the position of the first byte that is no UTF-8, the others
/// a line, counted from 1: of a rule that is none, of an action before any rule, of a rule whose text
/// is no regular expression.
#[derive(Clone, Copy, Debug, Drop, Error, PartialEq, Eq)]
pub enum ExtError {
    #[error("no text at byte {0}")]
    NotText(usize),
    #[error("line {0} is no rule")]
    UnknownRule(usize),
    #[error("line {0} is an action before any rule")]
    ActionBeforeRule(usize),
    #[error("line {0} has no regular expression")]
    BadPattern(usize),
    #[error("out of memory")]
    Memory,
}

impl From<NoMemory> for ExtError {
    ghost use Rattle.std.specs.Prelude.{◌≡◌};
    ghost use Rattle.ext_rules.specs.declared.error.ExtError.TheVariants.{Memory};

    ghost from_gives = { λ _ error. error ≡ Memory };

    fn from(_error: NoMemory) -> ExtError {
        ExtError::Memory
    }
}
