//! The walk of a search: what is to be done next, the folder that is worked, and the open folders around it.
ghost use Rattle.std.specs.Prelude.{◌≡◌, ◌≢◌, ◌<◌, ◌≤◌, ◌^◌, ◌∷◌, ◌&&◌, not, false, [], drop, length, map};
ghost use Rattle.std.specs.Prelude.{None, Some, Ok, IfOk, IfErr, IfNone, IfSome, IsOk, OnOk, if◌then◌else◌};
ghost use Rattle.mc_text.specs.declared.kind.Kind.TheVariants.{File};
ghost use Rattle.tree_trait.specs.declared.file_system.FileSystem.{FileSystem};
ghost use Rattle.tree_trait.specs.Calls.{Stat};
ghost use Rattle.tree_trait.specs.Refusals.{refusal_of};
ghost use Rattle.tree_trait.specs.FileSystem.{node};
ghost use Rattle.tree_trait.specs.Change.{current, found_node};
ghost use Rattle.tree_trait.specs.Answers.{IfKnown};
ghost use Rattle.find_file.specs.FoundList.{is_by_name};
ghost use Rattle.find_file.specs.Folders.{child_of};
ghost use Rattle.find_file.specs.Walks.{rank};
ghost use Rattle.find_file.specs.Telling.{Goes, HasReason, IsOver, Leaves, StandsAt};
ghost use Rattle.find_file.specs.Telling.{Steps, Works, cause_at, place_of, with_task};

use crate::content::file_holds;
use crate::found::Found;
use crate::marking::marked;
use crate::opened::Opened;
use crate::search::Search;
use mc_text::{Kind, Names, NoMemory, Path, PathError};
use std::alloc::Global;
use std::mem;
use tree_trait::{ReadTree, TreeError};
use tree_walk::Around;

/// What a walk does next, before it goes on with the children of the folder that is worked.
#[derive(Debug, Drop)]
pub enum Task {
    /// To look at a thing: a folder is gone into, and a file is read where the pattern finds its name and
    /// a content is looked for.
    Look { path: Path, is_named: bool },
    /// To list a folder and go into it.
    List { folder: Path },
}

/// A walk. At first no folder is open: the one that is worked is the root with nothing left to be met.
#[derive(Debug, Drop)]
pub struct Walk {
    pub task: Option<Task>,
    pub inner: Opened,
    pub around: Around<Opened>,
}

impl Walk {
    /// A walk that begins with the listing of a folder. It takes no memory.
    pub fn start(alloc: Global, folder: Path) -> Walk
        ensures { StandsAt result (Some (Task.List folder)) (record { path = []; children = [] }) [] }
    {
        Walk {
            task: Some(Task::List { folder }),
            inner: Opened::nothing(alloc),
            around: Around::new(alloc),
        }
    }

    /// Does what is next: at most a look and a read, or a listing.
    pub fn step<T: ReadTree>(
        &mut self,
        alloc: Global,
        tree: &mut T,
        search: &Search,
    ) -> Result<Option<Found>, NoMemory>
        ensures answer { IfKnown (T.contents tree.old) (λ log.
            Steps (current log) search.now self.old result self.new) }
        ensures falls { IsOk result → result ≢ Ok (Some Found.End) → rank self.new < rank self.old }
        ensures reason { HasReason (T.fault_count tree.old) (T.fault_count tree.new) (cause_at result) }
        ensures same { T.contents tree.new ≡ T.contents tree.old }
        ensures ended { result ≡ Ok (Some Found.End) → IsOver self.new }
        ensures over { IsOver self.old → result ≡ Ok (Some Found.End) }
        ensures apart { self.old.task ≡ None → tree.new ≡ tree.old }
        ensures leaves { (task : Task) → self.old.task ≡ Some task → Leaves self.old task result self.new }
    {
        match self.task.take() {
            None => self.meet(alloc, search),
            Some(Task::Look { path, is_named }) => self.look(alloc, tree, search, path, is_named),
            Some(Task::List { folder }) => self.list(alloc, tree, search, folder),
        }
    }

    /// Meets the next child of the folder that is worked.
    fn meet(&mut self, alloc: Global, search: &Search) -> Result<Option<Found>, NoMemory>
        requires { self.old.task ≡ None }
        ensures { Goes search.now self.old self.new result }
    {
        let Some(child) = self.inner.first() else {
            return Ok(self.leave());
        };
        let is_named = child.is_named;
        if search.leaves_out(&child.name) {
            return Ok(self.pass());
        }
        match self.inner.path().join(alloc, &child.name) {
            Ok(path) => self.take_up(alloc, search, path, is_named),
            Err(PathError::TooLong(_)) => Ok(self.pass()),
            Err(_) => Err(NoMemory),
        }
    }

    /// Goes back to the folder around.
    fn leave(&mut self) -> Option<Found>
        ensures back { IfNone result (self.old.around.nearest ≡ self.new.inner ∷ self.new.around.nearest) }
        ensures over { IfSome result (λ told. (told ≡ Found.End) × (self.old.around.nearest ≡ [])
            × (self.new.around.nearest ≡ [])
            × (self.new.inner ≡ self.old.inner)) }
        ensures same { self.new.task ≡ self.old.task }
    {
        match self.around.take() {
            Some(folder) => {
                self.inner = folder;
                None
            }
            None => Some(Found::End),
        }
    }

    /// Passes a child over, with all below it.
    fn pass(&mut self) -> Option<Found>
        ensures none { result ≡ None }
        ensures passed { self.new ≡ record self.old {
          inner = record self.old.inner { children = drop 1 self.old.inner.children };
        } }
    {
        self.inner.pass();
        None
    }

    /// Takes up a child at this path. It is found at once where the name alone decides; then it is looked at.
    fn take_up(
        &mut self,
        alloc: Global,
        search: &Search,
        path: Path,
        is_named: bool,
    ) -> Result<Option<Found>, NoMemory>
        ensures told { IfOk result (λ told.
            told ≡ (if is_named && is_by_name search.now then Some (Found.Path path) else None)) }
        ensures next { OnOk result (self.new ≡ record self.old {
          task = Some (Task.Look path is_named);
          inner = record self.old.inner { children = drop 1 self.old.inner.children };
        }) }
        ensures refused { IfErr result (λ _. self.new ≡ self.old) }
    {
        if is_named && search.is_by_name() {
            let found = path.copy(alloc)?;
            self.look_next(path, is_named);
            return Ok(Some(Found::Path(found)));
        }
        self.look_next(path, is_named);
        Ok(None)
    }

    /// Passes a child, which is looked at next.
    fn look_next(&mut self, path: Path, is_named: bool)
        ensures { self.new ≡ record self.old {
          task = Some (Task.Look path is_named);
          inner = record self.old.inner { children = drop 1 self.old.inner.children };
        } }
    {
        self.inner.pass();
        self.task = Some(Task::Look { path, is_named });
    }

    /// Looks at a thing.
    fn look<T: ReadTree>(
        &mut self,
        alloc: Global,
        tree: &mut T,
        search: &Search,
        path: Path,
        is_named: bool,
    ) -> Result<Option<Found>, NoMemory>
        requires { self.old.task ≡ None }
        ensures answer { IfKnown (T.contents tree.old) (λ log.
            Steps (current log) search.now (with_task self.old (Task.Look path is_named)) result self.new) }
        ensures works { Works (Task.Look path is_named) self.old self.new (T.fault_count tree.old)
            (T.fault_count tree.new) result }
        ensures same { T.contents tree.new ≡ T.contents tree.old }
    {
        match tree.stat(alloc, &path) {
            Err(error) => self.refused(Task::Look { path, is_named }, error),
            Ok(meta) => match meta.kind {
                Kind::Folder => Ok(self.go_into(search, path)),
                Kind::File => self.read(alloc, tree, search, path, is_named, meta.size),
                Kind::Link => Ok(None),
                Kind::Other => Ok(None),
            },
        }
    }

    /// A folder is listed next, where the search is recursive.
    fn go_into(&mut self, search: &Search, folder: Path) -> Option<Found>
        ensures none { result ≡ None }
        ensures next { self.new
            ≡ (if search.now.recursive then with_task self.old (Task.List folder) else self.old) }
    {
        if search.recursive {
            self.task = Some(Task::List { folder });
        }
        None
    }

    /// Reads a file, which was said to have so many bytes, where the pattern finds its name and a content is
    /// looked for.
    fn read<T: ReadTree>(
        &mut self,
        alloc: Global,
        tree: &mut T,
        search: &Search,
        path: Path,
        is_named: bool,
        size: u64,
    ) -> Result<Option<Found>, NoMemory>
        requires { self.old.task ≡ None }
        ensures answer { IfKnown (T.contents tree.old) (λ log.
            refusal_of (current log) (Stat path) ≡ None
            → (node (current log) (found_node (current log) path)).kind ≡ File
            → size ≡ length (node (current log) (found_node (current log) path)).bytes
            → Steps (current log) search.now (with_task self.old (Task.Look path is_named)) result self.new) }
        ensures works { Works (Task.Look path is_named) self.old self.new (T.fault_count tree.old)
            (T.fault_count tree.new) result }
        ensures apart { (is_named && not (is_by_name search.now)) ≡ false → tree.new ≡ tree.old }
        ensures empty { size ≡ 0 → tree.new ≡ tree.old }
        ensures same { T.contents tree.new ≡ T.contents tree.old }
    {
        if !is_named || search.is_by_name() {
            return Ok(None);
        }
        if size == 0 {
            return Ok(None);
        }
        match file_holds(alloc, tree, &path, search.content.0.as_slice(), size) {
            Ok(true) => Ok(Some(Found::Path(path))),
            Ok(false) => Ok(None),
            Err(error) => self.refused(Task::Look { path, is_named }, error),
        }
    }

    /// Lists a folder.
    fn list<T: ReadTree>(
        &mut self,
        alloc: Global,
        tree: &mut T,
        search: &Search,
        folder: Path,
    ) -> Result<Option<Found>, NoMemory>
        requires { self.old.task ≡ None }
        ensures answer { IfKnown (T.contents tree.old) (λ log.
            Steps (current log) search.now (with_task self.old (Task.List folder)) result self.new) }
        ensures works { Works (Task.List folder) self.old self.new (T.fault_count tree.old)
            (T.fault_count tree.new) result }
        ensures same { T.contents tree.new ≡ T.contents tree.old }
    {
        let _short = folder.names();
        match tree.list(alloc, &folder) {
            Err(error) => self.refused(Task::List { folder }, error),
            Ok(children) => self.enter(alloc, search, folder, children.names),
        }
    }

    /// Goes into a folder that was listed.
    fn enter(
        &mut self,
        alloc: Global,
        search: &Search,
        folder: Path,
        names: Names,
    ) -> Result<Option<Found>, NoMemory>
        requires { self.old.task ≡ None }
        ensures entered { IfOk result (λ told. (told ≡ None) × StandsAt self.new None
            (record { path = folder; children = map (child_of search.now.name) names })
            (self.old.inner ∷ self.old.around.nearest)) }
        ensures waits { IfErr result (λ _.
            StandsAt self.new (Some (Task.List folder)) self.old.inner self.old.around.nearest) }
        ensures few { IfOk result (λ _. length self.new.inner.children ≤ 2 ^ 64) }
    {
        let Ok(()) = self.around.reserve() else {
            self.task = Some(Task::List { folder });
            return Err(NoMemory);
        };
        match marked(alloc, &search.name, names) {
            Ok(children) => Ok(self.open(Opened::from_last(folder, children))),
            Err(NoMemory) => {
                self.task = Some(Task::List { folder });
                Err(NoMemory)
            }
        }
    }

    /// Works a folder in the one that was worked, which waits for its end.
    fn open(&mut self, folder: Opened) -> Option<Found>
        requires room { 0 < self.old.around.spare }
        ensures none { result ≡ None }
        ensures entered { StandsAt self.new self.old.task folder (self.old.inner ∷ self.old.around.nearest) }
    {
        let around = mem::replace(&mut self.inner, folder);
        self.around.add(around);
        None
    }

    /// A call of the tree was refused: that is told, but for want of memory, where the task waits.
    fn refused(&mut self, task: Task, error: TreeError) -> Result<Option<Found>, NoMemory>
        ensures told { IfOk result (λ told. (told ≡ Some (Found.Skipped (place_of task) error))
            × (error ≢ TreeError.Memory) × (self.new ≡ self.old)) }
        ensures waits { IfErr result
            (λ _. (error ≡ TreeError.Memory) × (self.new ≡ with_task self.old task)) }
    {
        match error {
            TreeError::Memory => {
                self.task = Some(task);
                Err(NoMemory)
            }
            error => Ok(Some(Found::Skipped(task.place(), error))),
        }
    }
}

impl Task {
    /// The path that it is about.
    fn place(self) -> Path
        ensures { result ≡ place_of self }
    {
        match self {
            Task::Look { path, is_named: _ } => path,
            Task::List { folder } => folder,
        }
    }
}
