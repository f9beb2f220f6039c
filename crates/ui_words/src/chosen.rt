//! The things that were chosen for a job.
ghost use Rattle.std.specs.Prelude.{◌≡◌, true};
ghost use Rattle.ui_words.specs.Chosen.{can_be_chosen};

use mc_text::Paths;

/// The things that were chosen, as they are listed: at least one, and each lies in a folder.
#[derive(Debug, Drop)]
pub struct Chosen {
    pub paths: Paths,
    ghost within: { can_be_chosen paths ≡ true },
}
