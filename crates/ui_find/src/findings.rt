//! What a search has told so far.
ghost use Rattle.std.specs.Prelude.{◌≡◌, ◌<◌, ◌≤◌, ◌++◌, ◌∷◌, [], length, vec_len, vec_capacity, IfOk, OnErr};
ghost use Rattle.tree_trait.specs.Change.{current};
ghost use Rattle.tree_trait.specs.Answers.{IfKnown};
ghost use Rattle.find_file.specs.Walks.{yet_to_find};
ghost use Rattle.ui_find.specs.Listings.{IsTold, by_more, no_findings};

use find_file::{Finder, Found};
use mc_text::{NoMemory, Path};
use std::alloc::Global;
use std::marker::Model;
use tree_trait::ReadTree;

/// The most paths that are listed.
const MOST_PATHS: usize = 10_000;

/// Whether a search goes on.
#[derive(Clone, Copy, Debug, Drop, PartialEq, Eq)]
pub enum Course {
    GoesOn,
    /// Nothing is left, or there are more paths than are listed.
    Ends,
}

/// What a search has told so far: the paths that are listed, how many were skipped,
/// and whether there are more.
#[derive(Debug, Drop)]
pub struct Findings {
    found: Vec<Path>,
    skipped: u64,
    has_more: bool,
}

impl Model for Findings {
    ghost use Rattle.std.specs.Prelude.{◌≤◌, length};
    ghost use Rattle.ui_find.specs.Tellings.{FindingsState};

    ghost Value = { FindingsState };

    ghost view = { λ f. record { found = f.found.items; skipped = f.skipped; has_more = f.has_more } };

    ghost invariant = { λ f. length f.found.items ≤ 10000 };
}

impl Findings {
    /// None yet. It takes no memory.
    pub fn new(alloc: Global) -> Findings
        ensures { result ≡ no_findings }
    {
        Findings {
            found: Vec::new(alloc),
            skipped: 0,
            has_more: false,
        }
    }

    /// Takes in what one step of a search tells. Where memory is wanting nothing is lost.
    pub fn next<T: ReadTree>(
        &mut self,
        alloc: Global,
        tree: &mut T,
        finder: &mut Finder,
    ) -> Result<Course, NoMemory>
        ensures told { IfOk result
            (IsTold (T.contents tree.old) (T.fault_count tree.old) (T.fault_count tree.new)
            finder.old finder.new self.old self.new) }
        ensures lost { OnErr result (self.new ≡ self.old) }
        ensures waits { OnErr result (IfKnown (T.contents tree.old) (λ log.
            yet_to_find (current log) finder.new ≡ yet_to_find (current log) finder.old)) }
        ensures same { T.contents tree.new ≡ T.contents tree.old }
        ensures later { T.fault_count tree.old ≤ T.fault_count tree.new }
    {
        let _skipped = &self.skipped;
        self.found.reserve(1)?;
        match finder.step(alloc, tree)? {
            None => Ok(Course::GoesOn),
            Some(Found::Path(path)) => {
                if self.found.len() < MOST_PATHS {
                    add(&mut self.found, path);
                    return Ok(course_by(self.has_more));
                }
                self.has_more = true;
                Ok(Course::Ends)
            }
            Some(Found::Skipped(_, _)) => {
                self.skipped = self.skipped.saturating_add(1);
                Ok(course_by(self.has_more))
            }
            Some(Found::End) => Ok(Course::Ends),
        }
    }

    /// The paths that are listed, in the order in which they were found.
    pub fn found(&self) -> &[Path]
        ensures value { result.now ≡ self.now.found }
        ensures few { length self.now.found ≤ MOST_PATHS }
    {
        self.found.as_slice()
    }

    /// How many paths were skipped.
    pub fn skipped(&self) -> u64
        ensures { result ≡ self.now.skipped }
    {
        self.skipped
    }

    /// Whether there are more paths than are listed.
    pub fn has_more(&self) -> bool
        ensures { result ≡ self.now.has_more }
    {
        self.has_more
    }
}

/// Whether a search goes on that has told something, and no end.
fn course_by(has_more: bool) -> Course
    ensures { result ≡ by_more has_more }
{
    if has_more {
        Course::Ends
    } else {
        Course::GoesOn
    }
}

/// Adds a path, for which there is room.
fn add(found: &mut Vec<Path>, path: Path)
    requires { vec_len found.old < vec_capacity found.old }
    ensures { found.new.items ≡ found.old.items ++ path ∷ [] }
{
    let _added = found.push(path);
}
