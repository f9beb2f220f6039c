//! The calls of a tree of files that change it.
ghost use Rattle.std.specs.Prelude.{◌≡◌, ◌+◌, ◌^◌, ◌≤◌, length, None};
ghost use Rattle.tree_trait.specs.Answered.{with_answer};
ghost use Rattle.tree_trait.specs.Calls.{MakeFile, WriteAt, SetMode, MakeFolder, MakeLink};
ghost use Rattle.tree_trait.specs.Calls.{Rename, RemoveFile, RemoveFolder, SyncFile, SyncFolder};
ghost use Rattle.tree_trait.specs.Answers.{HasCause, IfKnown, Performs, count_after, IsLinkText};

use crate::calls::TreeError;
use crate::read_tree::ReadTree;
use mc_text::Path;
use std::alloc::Global;

/// A tree of files that can be changed. No call follows a link. Each call here joins the log, unless it
/// found no memory. A call that was refused leaves all that can be read as it was.
pub trait Tree: ReadTree {
    /// Makes an empty file.
    fn make_file(&mut self, alloc: Global, path: &Path, mode: u16) -> Result<(), TreeError>
        requires mode { mode ≤ 0o7777 }
        ensures answer { IfKnown (Self.contents self.old) (λ log.
            Performs log (MakeFile path.now mode) result (Self.contents self.new)) }
        ensures stays_unknown { Self.contents self.old ≡ None → Self.contents self.new ≡ None }
        ensures cause { HasCause TreeError.Fault (Self.fault_count self.old)
            (Self.fault_count self.new) result }
        ensures counts { Self.fault_count self.new ≡ count_after (Self.fault_count self.old) result }
        ensures told { Self.answered self.new
            ≡ with_answer (MakeFile path.now mode) result (Self.answered self.old) };

    /// Writes bytes into a file over what stands at an offset. Between the old end and the offset come
    /// zeros. Where the device failed, any bytes may be left in the file.
    fn write_at(
        &mut self,
        alloc: Global,
        path: &Path,
        offset: u64,
        bytes: &[u8],
    ) -> Result<(), TreeError>
        requires fits { offset + length bytes.now ≤ 2 ^ 63 }
        ensures answer { IfKnown (Self.contents self.old) (λ log.
            Performs log (WriteAt path.now offset bytes.now) result (Self.contents self.new)) }
        ensures stays_unknown { Self.contents self.old ≡ None → Self.contents self.new ≡ None }
        ensures cause { HasCause TreeError.Fault (Self.fault_count self.old)
            (Self.fault_count self.new) result }
        ensures counts { Self.fault_count self.new ≡ count_after (Self.fault_count self.old) result }
        ensures told { Self.answered self.new
            ≡ with_answer (WriteAt path.now offset bytes.now) result (Self.answered self.old) };

    /// Sets the twelve mode bits of a file or a folder.
    fn set_mode(&mut self, alloc: Global, path: &Path, mode: u16) -> Result<(), TreeError>
        requires mode { mode ≤ 0o7777 }
        ensures answer { IfKnown (Self.contents self.old) (λ log.
            Performs log (SetMode path.now mode) result (Self.contents self.new)) }
        ensures stays_unknown { Self.contents self.old ≡ None → Self.contents self.new ≡ None }
        ensures cause { HasCause TreeError.Fault (Self.fault_count self.old)
            (Self.fault_count self.new) result }
        ensures counts { Self.fault_count self.new ≡ count_after (Self.fault_count self.old) result }
        ensures told { Self.answered self.new
            ≡ with_answer (SetMode path.now mode) result (Self.answered self.old) };

    /// Makes an empty folder.
    fn make_folder(&mut self, alloc: Global, path: &Path, mode: u16) -> Result<(), TreeError>
        requires mode { mode ≤ 0o7777 }
        ensures answer { IfKnown (Self.contents self.old) (λ log.
            Performs log (MakeFolder path.now mode) result (Self.contents self.new)) }
        ensures stays_unknown { Self.contents self.old ≡ None → Self.contents self.new ≡ None }
        ensures cause { HasCause TreeError.Fault (Self.fault_count self.old)
            (Self.fault_count self.new) result }
        ensures counts { Self.fault_count self.new ≡ count_after (Self.fault_count self.old) result }
        ensures told { Self.answered self.new
            ≡ with_answer (MakeFolder path.now mode) result (Self.answered self.old) };

    /// Makes a link with a text of 1 to 4,095 bytes and no NUL.
    fn make_link(&mut self, alloc: Global, path: &Path, text: &str) -> Result<(), TreeError>
        requires link_text { IsLinkText text.now }
        ensures answer { IfKnown (Self.contents self.old) (λ log.
            Performs log (MakeLink path.now text.now) result (Self.contents self.new)) }
        ensures stays_unknown { Self.contents self.old ≡ None → Self.contents self.new ≡ None }
        ensures cause { HasCause TreeError.Fault (Self.fault_count self.old)
            (Self.fault_count self.new) result }
        ensures counts { Self.fault_count self.new ≡ count_after (Self.fault_count self.old) result }
        ensures told { Self.answered self.new
            ≡ with_answer (MakeLink path.now text.now) result (Self.answered self.old) };

    /// Gives a thing another name in one edit, and replaces what that name led to.
    fn rename(&mut self, alloc: Global, from: &Path, to: &Path) -> Result<(), TreeError>
        ensures answer { IfKnown (Self.contents self.old) (λ log.
            Performs log (Rename from.now to.now) result (Self.contents self.new)) }
        ensures stays_unknown { Self.contents self.old ≡ None → Self.contents self.new ≡ None }
        ensures cause { HasCause TreeError.Fault (Self.fault_count self.old)
            (Self.fault_count self.new) result }
        ensures counts { Self.fault_count self.new ≡ count_after (Self.fault_count self.old) result }
        ensures told { Self.answered self.new
            ≡ with_answer (Rename from.now to.now) result (Self.answered self.old) };

    /// Removes the name of a thing that is no folder.
    fn remove_file(&mut self, alloc: Global, path: &Path) -> Result<(), TreeError>
        ensures answer { IfKnown (Self.contents self.old) (λ log.
            Performs log (RemoveFile path.now) result (Self.contents self.new)) }
        ensures stays_unknown { Self.contents self.old ≡ None → Self.contents self.new ≡ None }
        ensures cause { HasCause TreeError.Fault (Self.fault_count self.old)
            (Self.fault_count self.new) result }
        ensures counts { Self.fault_count self.new ≡ count_after (Self.fault_count self.old) result }
        ensures told { Self.answered self.new
            ≡ with_answer (RemoveFile path.now) result (Self.answered self.old) };

    /// Removes the name of an empty folder.
    fn remove_folder(&mut self, alloc: Global, path: &Path) -> Result<(), TreeError>
        ensures answer { IfKnown (Self.contents self.old) (λ log.
            Performs log (RemoveFolder path.now) result (Self.contents self.new)) }
        ensures stays_unknown { Self.contents self.old ≡ None → Self.contents self.new ≡ None }
        ensures cause { HasCause TreeError.Fault (Self.fault_count self.old)
            (Self.fault_count self.new) result }
        ensures counts { Self.fault_count self.new ≡ count_after (Self.fault_count self.old) result }
        ensures told { Self.answered self.new
            ≡ with_answer (RemoveFolder path.now) result (Self.answered self.old) };

    /// Brings the bytes of a file, and its mode, onto the disk.
    fn sync_file(&mut self, alloc: Global, path: &Path) -> Result<(), TreeError>
        ensures answer { IfKnown (Self.contents self.old) (λ log.
            Performs log (SyncFile path.now) result (Self.contents self.new)) }
        ensures stays_unknown { Self.contents self.old ≡ None → Self.contents self.new ≡ None }
        ensures cause { HasCause TreeError.Fault (Self.fault_count self.old)
            (Self.fault_count self.new) result }
        ensures counts { Self.fault_count self.new ≡ count_after (Self.fault_count self.old) result }
        ensures told { Self.answered self.new
            ≡ with_answer (SyncFile path.now) result (Self.answered self.old) };

    /// Brings the names of a folder, and its mode, onto the disk.
    fn sync_folder(&mut self, alloc: Global, path: &Path) -> Result<(), TreeError>
        ensures answer { IfKnown (Self.contents self.old) (λ log.
            Performs log (SyncFolder path.now) result (Self.contents self.new)) }
        ensures stays_unknown { Self.contents self.old ≡ None → Self.contents self.new ≡ None }
        ensures cause { HasCause TreeError.Fault (Self.fault_count self.old)
            (Self.fault_count self.new) result }
        ensures counts { Self.fault_count self.new ≡ count_after (Self.fault_count self.old) result }
        ensures told { Self.answered self.new
            ≡ with_answer (SyncFolder path.now) result (Self.answered self.old) };
}
