//! The files of the machine, and those of them that are open. The calls stand by topic in `looking`,
//! `reading`, `writing` and `naming`.
ghost use Rattle.std.specs.Prelude.{◌≡◌, [], None, IfOk};
ghost use Rattle.mc_text.specs.Routes.{path_text};

use crate::kept::Kept;
use crate::kinds::{Wanted, require_kind};
use crate::real_path::{Walked, look_at, real_text, text_at_once};
use mc_text::{Path, Text};
use std::alloc::{AllocGlobal, Global};
use std::convert::AsStr;
use std::fs::Metadata;
use std::rt::Files;
use tree_trait::TreeError;

/// What the calls of a tree work on.
#[derive(Drop)]
pub struct Machine<R: Files> {
    pub rt: R,
    /// What was looked at on the ways of paths.
    pub walked: Walked,
    /// Files that were made, written or given a mode, until they are synced: a mode without the bit to read
    /// or write then hinders neither the writes nor the sync.
    pub kept: Kept<R::File>,
    /// The file that was read last, if it is still what it was.
    pub read: Kept<R::File>,
}

impl<R: Files + AllocGlobal> Machine<R> {
    /// Nothing is open yet. It takes no memory.
    pub fn new(rt: R) -> Machine<R>
        ensures { result.kept.files.items ≡ [] }
    {
        let kept = Kept::new(rt.alloc());
        let read = Kept::new(rt.alloc());
        let walked = Walked::new(rt.alloc());
        Machine {
            rt,
            walked,
            kept,
            read,
        }
    }
}

impl<R: Files> Machine<R> {
    /// The text of a path, on whose way is no link.
    pub fn text_of(&mut self, alloc: Global, path: &Path) -> Result<Text, TreeError>
        ensures text { IfOk result (λ text. text ≡ path_text path.now) }
        ensures kept { self.new.kept ≡ self.old.kept }
        ensures read { self.new.read ≡ self.old.read }
    {
        real_text(&self.rt, alloc, &mut self.walked, path)
    }

    /// What stands at a path, on whose way is no link.
    pub fn facts_of(&mut self, alloc: Global, path: &Path) -> Result<Metadata, TreeError>
        ensures kept { self.new.kept ≡ self.old.kept }
        ensures read { self.new.read ≡ self.old.read }
    {
        let Ok(text) = text_at_once(alloc, path) else {
            return Err(TreeError::Memory);
        };
        let facts = look_at(&self.rt, alloc, &mut self.walked, text.as_str())?;
        self.walked.note_file(text, &facts);
        Ok(facts)
    }

    /// The text of a path, on whose way is no link and at which a thing of this kind stands.
    pub fn text_to(&mut self, alloc: Global, path: &Path, wanted: Wanted) -> Result<Text, TreeError>
        ensures text { IfOk result (λ text. text ≡ path_text path.now) }
        ensures kept { self.new.kept ≡ self.old.kept }
        ensures read { self.new.read ≡ self.old.read }
    {
        let Ok(text) = text_at_once(alloc, path) else {
            return Err(TreeError::Memory);
        };
        let facts = look_at(&self.rt, alloc, &mut self.walked, text.as_str())?;
        require_kind(&facts, wanted)?;
        Ok(text)
    }

    /// The next call looks at its whole way, and at what it reads, anew.
    pub fn look_anew(&mut self)
        ensures walked { self.new.walked ≡ None }
        ensures read { self.new.read.files.items ≡ [] }
        ensures kept { self.new.kept ≡ self.old.kept }
    {
        self.walked.forget();
        self.read.forget_all();
    }
}
