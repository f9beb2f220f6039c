//! A claim of a path.
ghost use Rattle.std.specs.Prelude.{◌≡◌, IfOk};
ghost use Rattle.job_claims.specs.Claiming.{clash};

use mc_text::{NoMemory, Path};
use op_plan::meet;
use std::alloc::Global;
use std::marker::Model;

/// A path that a job claims with all that lies below it: for reading, or for writing.
#[derive(Debug, Drop)]
pub struct Claim {
    pub path: Path,
    pub writes: bool,
}

impl Claim {
    /// Whether this claim and another can't stand side by side: one of the paths is or holds the other, and
    /// at least one of the claims is for writing.
    pub fn clashes_with(&self, other: &Claim) -> bool
        ensures { result ≡ clash self.now other.now }
    {
        (self.writes || other.writes) && meet(&self.path, &other.path)
    }

    /// The same claim once more.
    pub fn copy(&self, alloc: Global) -> Result<Claim, NoMemory>
        ensures { IfOk result (λ copy. copy ≡ self.now) }
    {
        Ok(Claim {
            path: self.path.copy(alloc)?,
            writes: self.writes,
        })
    }
}

/// Some claims.
#[derive(Debug, Drop)]
pub struct Claims(pub Vec<Claim>);

impl Model for Claims {
    ghost use Rattle.std.specs.Prelude.{List};
    ghost use Rattle.job_claims.specs.declared.claim.Claim.{Claim};

    ghost Value = { List Claim };

    ghost view = { λ l. l.0.items };
}

impl Claims {
    /// The members.
    pub fn as_slice(&self) -> &[Claim]
        ensures { result.now ≡ self.now }
    {
        self.0.as_slice()
    }

    /// The same list once more.
    pub fn copy(&self, alloc: Global) -> Result<Claims, NoMemory>
        ensures { IfOk result (λ copy. copy ≡ self.now) }
    {
        let mut copies = Vec::new(alloc);
        for claim in &self.0 {
            copies.push(claim.copy(alloc)?)?;
        }
        Ok(Claims(copies))
    }
}
