//! A search that runs.
ghost use Rattle.std.specs.Prelude.{◌≡◌, ◌≤◌, None, Some, Ok, IfOk, IfSome, IsOk, OnErr, unwrap_or, []};
ghost use Rattle.tree_trait.specs.declared.file_system.FileSystem.{FileSystem};
ghost use Rattle.tree_trait.specs.Change.{current};
ghost use Rattle.tree_trait.specs.Answers.{IfKnown};
ghost use Rattle.find_file.specs.FoundList.{found_list, turns_below};
ghost use Rattle.find_file.specs.Walks.{yet_to_come, yet_to_find};
ghost use Rattle.find_file.specs.Telling.{Answers, HasReason, IsFirst, IsOver, IsStep, Leaves, cause_in};

use crate::found::Found;
use crate::search::Search;
use crate::walk::{Task, Walk};
use mc_text::{Bytes, NoMemory, Path};
use std::alloc::Global;
use tagging::Pattern;
use tree_trait::ReadTree;

/// A search that runs. It holds the names of one folder a level, and nothing of what lies below them.
#[derive(Debug, Drop)]
pub struct Finder {
    search: Search,
    walk: Walk,
}

impl Finder {
    /// A search for what lies below a folder and has a name that the pattern finds. Where there is a
    /// content and it isn't empty, only files that hold it are looked for. It takes no memory.
    pub fn new(
        alloc: Global,
        start: Path,
        name: Pattern,
        content: Option<Bytes>,
        recursive: bool,
        hidden: bool,
    ) -> Result<Finder, NoMemory>
        ensures search { IfOk result (λ finder. finder.search
            ≡ record {
              name = name;
              content = unwrap_or content [];
              recursive = recursive;
              hidden = hidden;
            }) }
        ensures turns { IfOk result (λ finder. (s : FileSystem)
            → yet_to_come s finder ≡ turns_below s finder.search start) }
        ensures list { IfOk result (λ finder. (s : FileSystem)
            → yet_to_find s finder ≡ found_list s finder.search start) }
        ensures made { IsOk result }
    {
        let content = match content {
            Some(bytes) => bytes,
            None => Bytes(Vec::new(alloc)),
        };
        Ok(Finder {
            search: Search {
                name,
                content,
                recursive,
                hidden,
            },
            walk: Walk::start(alloc, start),
        })
    }

    /// One step of the search, which may tell nothing yet: at most a look and the read of a file, or a
    /// listing. Where memory is short nothing is lost: the next step goes on.
    pub fn step<T: ReadTree>(
        &mut self,
        alloc: Global,
        tree: &mut T,
    ) -> Result<Option<Found>, NoMemory>
        ensures step { IfOk result (λ told.
            IsStep (T.contents tree.old) (T.fault_count tree.old) (T.fault_count tree.new)
            self.old told self.new) }
        ensures waits { OnErr result (IfKnown (T.contents tree.old) (λ log.
            yet_to_find (current log) self.new ≡ yet_to_find (current log) self.old)) }
        ensures same { T.contents tree.new ≡ T.contents tree.old }
        ensures later { T.fault_count tree.old ≤ T.fault_count tree.new }
        ensures search { self.new.search ≡ self.old.search }
        ensures over { IsOver self.old.walk → (result ≡ Ok (Some Found.End)) × (tree.new ≡ tree.old) }

        // It is one step of the walk: it works the task, and without one doesn't touch the tree.
        ensures leaves { (task : Task) → self.old.walk.task ≡ Some task
            → Leaves self.old.walk task result self.new.walk }
        ensures apart { self.old.walk.task ≡ None → tree.new ≡ tree.old }
    {
        self.walk.step(alloc, tree, &self.search)
    }

    /// The next answer. Where memory is short nothing is lost: the next call goes on.
    pub fn next<T: ReadTree>(&mut self, alloc: Global, tree: &mut T) -> Result<Found, NoMemory>
        // An answer is the first of what is yet to be found; or the device failed at
        // the next look or listing.
        ensures first { IfKnown (T.contents tree.old) (λ log.
            IsFirst (yet_to_find (current log) self.old) result (yet_to_find (current log) self.new)) }
        ensures answer { IfKnown (T.contents tree.old) (λ log. Answers (current log) self.old.search
            (yet_to_come (current log) self.old) result (yet_to_come (current log) self.new)) }

        // A path is skipped for a fault only where the device failed, and never for want of memory.
        ensures reason { HasReason (T.fault_count tree.old) (T.fault_count tree.new) (cause_in result) }

        // Nothing is changed, and behind the end is the end, without a look.
        ensures same { T.contents tree.new ≡ T.contents tree.old }
        ensures search { self.new.search ≡ self.old.search }
        ensures ended { result ≡ Ok Found.End → IsOver self.new.walk }
        ensures over { IsOver self.old.walk → (result ≡ Ok Found.End) × (tree.new ≡ tree.old) }
    {
        loop {
            if let Some(found) = self.walk.step(alloc, tree, &self.search)? {
                return Ok(found);
            }
        }
    }
}
