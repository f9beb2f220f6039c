//! The calls that look at a tree of files and change nothing.
ghost use Rattle.std.specs.Prelude.{◌≡◌, ℕ, ◌≤◌, List, length, Option, IfOk};
ghost use Rattle.tree_trait.specs.Answered.{Answered};
ghost use Rattle.tree_trait.specs.Calls.{Stat, ListFolder, ReadAt, ReadLink};
ghost use Rattle.tree_trait.specs.FileSystem.{node};
ghost use Rattle.tree_trait.specs.Change.{CallLog, current, found_node};
ghost use Rattle.tree_trait.specs.Answers.{HasCause, IfKnown, Reads, count_after, IsMeta};
ghost use Rattle.tree_trait.specs.Answers.{IsListing, IsRead, IsLinkText, IsInRange, IsAscending};

use crate::calls::{Children, Meta, TreeError};
use mc_text::{Path, Text};
use std::alloc::Global;

/// What can be read of a tree of files. No call follows a link, and none changes anything: whoever holds a
/// tree by this trait alone can't change it.
pub trait ReadTree {
    /// The opening and what the changing calls did since, where it is known.
    ghost contents: { Self → Option CallLog };

    /// How often the tree has failed.
    ghost fault_count: { Self → ℕ };

    /// The changing calls that were made on it, and what each answered, the newest first. Each tree tells it.
    ghost answered: { Self → List Answered };

    /// What stands at a path: a link is not followed.
    fn stat(&mut self, alloc: Global, path: &Path) -> Result<Meta, TreeError>
        ensures answer { IfKnown (contents self.old) (λ log.
            Reads log (Stat path.now) result (IsMeta (current log) path.now)) }
        ensures same { contents self.new ≡ contents self.old }
        ensures in_range { IfOk result IsInRange }
        ensures cause { HasCause TreeError.Fault (fault_count self.old) (fault_count self.new) result }
        ensures counts { fault_count self.new ≡ count_after (fault_count self.old) result }
        ensures told { answered self.new ≡ answered self.old };

    /// The children of a folder, in byte order of their names.
    fn list(&mut self, alloc: Global, path: &Path) -> Result<Children, TreeError>
        ensures answer { IfKnown (contents self.old) (λ log.
            Reads log (ListFolder path.now) result
            (IsListing (current log) (found_node (current log) path.now))) }
        ensures same { contents self.new ≡ contents self.old }
        ensures ascending { IfOk result (λ children. IsAscending children.names) }
        ensures cause { HasCause TreeError.Fault (fault_count self.old) (fault_count self.new) result }
        ensures counts { fault_count self.new ≡ count_after (fault_count self.old) result }
        ensures told { answered self.new ≡ answered self.old };

    /// Reads bytes of a file from an offset on: as many as are there and `into` has room for, and past the
    /// end none. What stands in `into` behind them isn't fixed.
    fn read_at(
        &mut self,
        alloc: Global,
        path: &Path,
        offset: u64,
        into: &mut [u8],
    ) -> Result<usize, TreeError>
        ensures answer { IfKnown (contents self.old) (λ log.
            Reads log (ReadAt path.now offset (length into.old)) result
            (IsRead (node (current log) (found_node (current log) path.now)).bytes offset
            into.old into.new)) }
        ensures same { contents self.new ≡ contents self.old }
        ensures in_room { IfOk result (λ count. count ≤ length into.old) }
        ensures cause { HasCause TreeError.Fault (fault_count self.old) (fault_count self.new) result }
        ensures counts { fault_count self.new ≡ count_after (fault_count self.old) result }
        ensures told { answered self.new ≡ answered self.old };

    /// The text of a link.
    fn read_link(&mut self, alloc: Global, path: &Path) -> Result<Text, TreeError>
        ensures answer { IfKnown (contents self.old) (λ log. Reads log (ReadLink path.now) result
            (λ text. text ≡ (node (current log) (found_node (current log) path.now)).bytes)) }
        ensures same { contents self.new ≡ contents self.old }
        ensures link_text { IfOk result IsLinkText }
        ensures cause { HasCause TreeError.Fault (fault_count self.old) (fault_count self.new) result }
        ensures counts { fault_count self.new ≡ count_after (fault_count self.old) result }
        ensures told { answered self.new ≡ answered self.old };

    /// How often the tree has failed: how many calls were answered `Fault`. It stays at its last value.
    fn faults(&self) -> u64
        ensures { result ≡ fault_count self.now };
}
