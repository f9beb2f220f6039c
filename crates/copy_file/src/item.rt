//! The file that is copied: where it lies, and where it is to come.
ghost use Rattle.std.specs.Prelude.{◌≡◌};
ghost use Rattle.mc_text.specs.Routes.{parent_of};
ghost use Rattle.job_reports.specs.Paths.{folder_of};
ghost use Rattle.copy_file.specs.Copying.{places};

use mc_text::Path;
use std::marker::Model;

/// The paths of a copy, and the number of its job.
#[derive(Debug, Drop)]
pub struct CopyPaths {
    job: u32,
    source: Path,
    source_folder: Path,
    target: Path,
    folder: Path,
}

impl Model for CopyPaths {
    ghost use Rattle.std.specs.Prelude.{◌≡◌};
    ghost use Rattle.copy_file.specs.Copying.{Places};
    ghost use Rattle.job_reports.specs.Paths.{folder_of};

    ghost Value = { Places };

    ghost view = { λ i. record { job = i.job; source = i.source; target = i.target } };

    ghost invariant = { λ i. (i.source_folder ≡ folder_of i.source) × (i.folder ≡ folder_of i.target) };
}

impl CopyPaths {
    /// The two folders hold the source and the target.
    pub fn new(job: u32, source: Path, source_folder: Path, target: Path, folder: Path) -> CopyPaths
        requires source { parent_of source ≡ Some source_folder }
        requires target { parent_of target ≡ Some folder }
        ensures { result ≡ places job source target }
    {
        CopyPaths {
            job,
            source,
            source_folder,
            target,
            folder,
        }
    }

    pub fn job(&self) -> u32
        ensures { result ≡ self.now.job }
    {
        self.job
    }

    pub fn source(&self) -> &Path
        ensures { result.now ≡ self.now.source }
    {
        &self.source
    }

    pub fn target(&self) -> &Path
        ensures { result.now ≡ self.now.target }
    {
        &self.target
    }

    pub fn source_folder(&self) -> &Path
        ensures { result.now ≡ folder_of self.now.source }
    {
        &self.source_folder
    }

    /// The folder that holds the target, and the part beside it.
    pub fn folder(&self) -> &Path
        ensures { result.now ≡ folder_of self.now.target }
    {
        &self.folder
    }
}
