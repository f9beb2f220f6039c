//! What the words of the command line ask for.
use crate::folders::StartPath;
use mc_text::NoMemory;
use thiserror::Error;

/// Why the words aren't read.
#[derive(Clone, Copy, Debug, Drop, Error, PartialEq, Eq)]
pub enum WordsError {
    /// They are out of the profile, or name what can be no folder.
    #[error("not in the profile")]
    Usage,
    #[error("out of memory")]
    Memory,
}

impl From<NoMemory> for WordsError {
    ghost use Rattle.std.specs.Prelude.{◌≡◌};
    ghost use Rattle.main_words.specs.declared.words.WordsError.TheVariants.{Memory};

    ghost from_gives = { λ _ error. error ≡ Memory };

    fn from(_error: NoMemory) -> WordsError {
        WordsError::Memory
    }
}

/// What the words ask for.
#[derive(Debug, Drop)]
pub enum Words {
    /// The help, which goes before the version.
    Help,
    Version,
    /// A session in two panels that show these folders.
    Panels { left: StartPath, right: StartPath },
    /// A session in which this file is viewed, and nothing else.
    View(StartPath),
    /// What is in the profile and isn't built yet: the editor, a file that is told the
    /// last folder, or the drill.
    NotBuilt,
}
