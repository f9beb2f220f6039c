//! What a deletion meets next: looks and listings, up to something that is to be done.
ghost use Rattle.std.specs.Prelude.{◌≡◌, ◌≤◌, length};
ghost use Rattle.mc_text.specs.Routes.{spelled_route};
ghost use Rattle.job_reports.specs.Reading.{Peeks};
ghost use Rattle.delete_job.specs.Descending.{GoesInto, IsNext, Meets};

use crate::deletion::{Deletion, Depth};
use crate::looking::{Found, what_stands};
use job_reports::{Cause, Trouble, out_of_memory, trouble_with_path};
use mc_text::{Names, Path, PathError};
use std::alloc::Global;
use tree_trait::Tree;

/// What is met.
#[derive(Debug, Drop)]
pub enum Met {
    /// A folder, which was gone into.
    Entered,
    /// A thing that is no folder.
    Thing(Path),
    /// The end of a folder.
    End,
}

impl Deletion {
    /// Looks at what comes next; a folder is listed and gone into.
    pub(crate) fn meet<T: Tree>(&mut self, alloc: Global, tree: &mut T) -> Result<Met, Trouble>
        ensures meets { Meets (T.contents tree.old) self.old result self.new }
        ensures peeks { Peeks result (T.contents tree.old) (T.contents tree.new) (T.fault_count tree.old)
            (T.fault_count tree.new) }
    {
        match self.depth {
            Depth::Top => self.meet_top(alloc, tree),
            Depth::Inside => self.meet_next(alloc, tree),
        }
    }

    /// The thing that is deleted.
    fn meet_top<T: Tree>(&mut self, alloc: Global, tree: &mut T) -> Result<Met, Trouble>
        requires depth { self.old.depth ≡ Depth.Top }
        ensures meets { Meets (T.contents tree.old) self.old result self.new }
        ensures peeks { Peeks result (T.contents tree.old) (T.contents tree.new) (T.fault_count tree.old)
            (T.fault_count tree.new) }
    {
        let Ok(path) = self.path.copy(alloc) else {
            return Err(out_of_memory(false));
        };
        match what_stands(alloc, tree, &path) {
            Ok(Found::Thing) => Ok(Met::Thing(path)),
            Ok(Found::Folder(children)) => self.open(path, children.names),
            Err(trouble) => Err(trouble),
        }
    }

    /// What the next name leads to.
    fn meet_next<T: Tree>(&mut self, alloc: Global, tree: &mut T) -> Result<Met, Trouble>
        requires depth { self.old.depth ≡ Depth.Inside }
        ensures meets { Meets (T.contents tree.old) self.old result self.new }
        ensures peeks { Peeks result (T.contents tree.old) (T.contents tree.new) (T.fault_count tree.old)
            (T.fault_count tree.new) }
    {
        let Some(name) = self.walk.next_name() else {
            return Ok(Met::End);
        };
        match self.walk.folder().join(alloc, name) {
            Ok(path) => self.meet_below(alloc, tree, path),
            Err(PathError::TooLong(_)) => {
                Err(trouble_with_path(alloc, Cause::TooLong, self.walk.folder()))
            }
            Err(_) => Err(out_of_memory(false)),
        }
    }

    /// A thing in a folder, unless it lies too deep.
    fn meet_below<T: Tree>(
        &mut self,
        alloc: Global,
        tree: &mut T,
        path: Path,
    ) -> Result<Met, Trouble>
        requires depth { self.old.depth ≡ Depth.Inside }
        requires next { IsNext path self.old.walk.place }
        requires short { length (spelled_route path) ≤ 4096 }
        ensures meets { Meets (T.contents tree.old) self.old result self.new }
        ensures peeks { Peeks result (T.contents tree.old) (T.contents tree.new) (T.fault_count tree.old)
            (T.fault_count tree.new) }
    {
        if self.walk.is_deepest() {
            return Err(trouble_with_path(alloc, Cause::TooDeep, &path));
        }
        match what_stands(alloc, tree, &path) {
            Ok(Found::Thing) => Ok(Met::Thing(path)),
            Ok(Found::Folder(children)) => self.enter(path, children.names),
            Err(trouble) => Err(trouble),
        }
    }

    /// Goes into the folder that is deleted.
    fn open(&mut self, path: Path, names: Names) -> Result<Met, Trouble>
        requires depth { self.old.depth ≡ Depth.Top }
        ensures { GoesInto self.old path names result self.new }
    {
        self.walk.open(path, names);
        self.depth = Depth::Inside;
        Ok(Met::Entered)
    }

    /// Goes into a folder.
    fn enter(&mut self, path: Path, names: Names) -> Result<Met, Trouble>
        requires depth { self.old.depth ≡ Depth.Inside }
        requires deeper { 1 ≤ self.old.walk.place.left }
        requires some { 1 ≤ length self.old.walk.place.inner.names }
        ensures { GoesInto self.old path names result self.new }
    {
        let Ok(()) = self.walk.reserve() else {
            return Err(out_of_memory(false));
        };
        self.walk.enter(path, names);
        Ok(Met::Entered)
    }
}
