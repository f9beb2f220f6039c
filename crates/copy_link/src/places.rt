//! The paths of a link's copy.
ghost use Rattle.std.specs.Prelude.{◌≡◌, Some};
ghost use Rattle.mc_text.specs.Routes.{parent_of};
ghost use Rattle.job_reports.specs.Paths.{folder_of};
ghost use Rattle.copy_link.specs.LinkCopying.{places};

use mc_text::Path;
use std::marker::Model;

/// Where the link lies, where it is to come, the folder of that, and the part beside it.
#[derive(Debug, Drop)]
pub(crate) struct Places {
    source: Path,
    target: Path,
    folder: Path,
    part: Path,
}

impl Model for Places {
    ghost use Rattle.std.specs.Prelude.{◌≡◌};
    ghost use Rattle.job_reports.specs.Paths.{folder_of};
    ghost use Rattle.copy_link.specs.LinkCopying.{LinkPlaces, places};

    ghost Value = { LinkPlaces };

    ghost view = { λ p. places p.source p.target p.part };

    ghost invariant = { λ p. p.folder ≡ folder_of p.target };
}

impl Places {
    /// `folder` holds the target.
    pub(crate) fn new(source: Path, target: Path, folder: Path, part: Path) -> Places
        requires { parent_of target ≡ Some folder }
        ensures { result ≡ places source target part }
    {
        Places {
            source,
            target,
            folder,
            part,
        }
    }

    pub(crate) fn source(&self) -> &Path
        ensures { result.now ≡ self.now.source }
    {
        &self.source
    }

    pub(crate) fn target(&self) -> &Path
        ensures { result.now ≡ self.now.target }
    {
        &self.target
    }

    pub(crate) fn folder(&self) -> &Path
        ensures { result.now ≡ folder_of self.now.target }
    {
        &self.folder
    }

    pub(crate) fn part(&self) -> &Path
        ensures { result.now ≡ self.now.part }
    {
        &self.part
    }

    pub(crate) fn into_part(self) -> Path
        ensures { result ≡ self.part }
    {
        self.part
    }
}
