//! The quick comparison of two folders: by name, time and size, without a look into the files.
ghost use Rattle.std.specs.Prelude.{◌≡◌, ℕ, List, IfOk, OnOk};
ghost use Rattle.std.specs.BTreeMap.{get_by_text};
ghost use Rattle.tagging.specs.Compared.{differing, differs, stamp_in, stamp_of};

use crate::keep::keep_if;
use mc_text::{Name, Names, NoMemory};
use std::alloc::Global;
use std::collections::BTreeMap;

/// A file's name, its size in bytes, and when it was changed, in seconds since 1970-01-01 UTC.
#[derive(Debug, Drop)]
pub struct FileFact {
    pub name: Name,
    pub size: u64,
    pub mtime: i64,
}

/// What a file is compared by.
#[derive(Clone, Copy, Debug, Drop)]
pub struct Stamp {
    size: u64,
    mtime: i64,
}

/// Each side's files whose name the other side lacks, or that are newer than the other side's file
/// of that name, or that are as old and have another size. A file that is older isn't given. The
/// order is that of each side.
///
/// Each side is sorted once, so the time grows as the number of files times its logarithm.
pub fn compare_quick(
    alloc: Global,
    left: &[FileFact],
    right: &[FileFact],
) -> Result<(Names, Names), NoMemory>
    ensures { IfOk result (λ given. given ≡ (differing left.now right.now, differing right.now left.now)) }
{
    let on_left = given(alloc, left, right)?;
    let on_right = given(alloc, right, left)?;
    Ok((on_left, on_right))
}

/// The names of the files of one side that are to be given.
fn given(alloc: Global, mine: &[FileFact], theirs: &[FileFact]) -> Result<Names, NoMemory>
    ensures { IfOk result (λ names. names ≡ differing mine.now theirs.now) }
{
    let stamps = stamps_of(alloc, theirs)?;
    let mut names = Names::new(alloc);
    for fact in mine {
        let other = stamps.get(fact.name.text()).copied();
        keep_if(alloc, fact.differs(other), &mut names, &fact.name)?;
    }
    Ok(names)
}

/// The stamps of one side by name.
fn stamps_of(alloc: Global, facts: &[FileFact]) -> Result<BTreeMap<String, Stamp>, NoMemory>
    ensures { IfOk result (λ stamps. (name : List ℕ) → get_by_text stamps name ≡ stamp_of facts.now name) }
{
    let mut stamps = BTreeMap::new(alloc);
    for fact in facts {
        stamps.insert(String::from_str(alloc, fact.name.text())?, fact.stamp())?;
    }
    Ok(stamps)
}

impl FileFact {
    /// What the file is compared by.
    fn stamp(&self) -> Stamp
        ensures { result ≡ stamp_in self.now }
    {
        Stamp {
            size: self.size,
            mtime: self.mtime,
        }
    }

    /// Whether the file is to be given, where this is what the other side has of its name.
    fn differs(&self, other: Option<Stamp>) -> bool
        ensures { result ≡ differs self.now other }
    {
        match other {
            None => true,
            Some(stamp) => {
                self.mtime > stamp.mtime || (self.mtime == stamp.mtime && self.size != stamp.size)
            }
        }
    }
}
