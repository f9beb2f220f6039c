//! What a job is to do.
ghost use Rattle.std.specs.Prelude.{◌≡◌, IfOk};

use mc_text::{NoMemory, Path, Paths, Text};
use std::alloc::Global;
use std::marker::Model;

/// What is to be copied or moved, and where to.
#[derive(Debug, Drop)]
pub struct Pair {
    pub source: Path,
    pub target: Path,
}

impl Pair {
    /// The same pair once more.
    pub fn copy(&self, alloc: Global) -> Result<Pair, NoMemory>
        ensures { IfOk result (λ copy. copy ≡ self.now) }
    {
        Ok(Pair {
            source: self.source.copy(alloc)?,
            target: self.target.copy(alloc)?,
        })
    }
}

/// Some pairs.
#[derive(Debug, Drop)]
pub struct Pairs(pub Vec<Pair>);

impl Model for Pairs {
    ghost use Rattle.std.specs.Prelude.{List};
    ghost use Rattle.job_reports.specs.declared.job.Pair.{Pair};

    ghost Value = { List Pair };

    ghost view = { λ l. l.0.items };
}

impl Pairs {
    /// The members.
    pub fn as_slice(&self) -> &[Pair]
        ensures { result.now ≡ self.now }
    {
        self.0.as_slice()
    }

    /// The same list once more.
    pub fn copy(&self, alloc: Global) -> Result<Pairs, NoMemory>
        ensures { IfOk result (λ copy. copy ≡ self.now) }
    {
        let mut copies = Vec::new(alloc);
        for pair in &self.0 {
            copies.push(pair.copy(alloc)?)?;
        }
        Ok(Pairs(copies))
    }
}

/// A job, as it was planned.
#[derive(Debug, Drop)]
pub enum Job {
    /// Copies each source, with all that lies in it, to its target.
    Copy(Pairs),
    /// Moves each source, with all that lies in it, to its target on the same mount.
    Move(Pairs),
    /// Deletes these.
    Delete(Paths),
    /// Makes a new, empty folder at this path.
    MakeFolder(Path),
    /// Makes a link with this text at this path.
    MakeLink(Path, Text),
    /// Gives each of these this mode, of twelve bits, and nothing that lies below them.
    SetMode(Paths, u16),
    /// Removes this folder, out of which a merge has moved what lay in it; one in which something stayed is
    /// kept. No key begins it: it is the last of the sources that the merge leaves.
    RemoveEmptied(Path),
}
