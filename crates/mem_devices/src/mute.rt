//! A device that passes each call on and tells nothing.
ghost use Rattle.std.specs.Prelude.{◌≡◌, ◌+◌, ◌^◌, ◌≤◌, length, None, IfOk};
ghost use Rattle.tree_trait.specs.FileSystem.{node};
ghost use Rattle.tree_trait.specs.Answered.{with_answer};
ghost use Rattle.tree_trait.specs.Calls.{Stat, ListFolder, ReadAt, ReadLink, MakeFile};
ghost use Rattle.tree_trait.specs.Calls.{WriteAt, SetMode, MakeFolder, MakeLink, Rename};
ghost use Rattle.tree_trait.specs.Calls.{RemoveFile, RemoveFolder, SyncFile, SyncFolder};
ghost use Rattle.tree_trait.specs.Change.{current, found_node};
ghost use Rattle.tree_trait.specs.Answers.{HasCause, count_after, IfKnown, Reads, Performs, IsMeta};
ghost use Rattle.tree_trait.specs.Answers.{IsListing, IsRead, IsLinkText, IsInRange, IsAscending};
ghost use Rattle.tree_trait.specs.Devices.{HasTaken, is_next, HasPut, HasRun};

use mc_text::{Path, Text};
use std::alloc::Global;
use tree_trait::{
    Children, Meta, OUTPUT_BYTES, ReadTree, RunOutcome, Sink, SinkError, Source, SourceFault,
    SpawnError, Spawner, Tree, TreeError,
};

/// An object whose contents are hidden.
#[derive(Drop)]
pub struct Mute<T> {
    inner: T,
}

impl<T> Mute<T> {
    /// Hides what an object tells. It takes no memory.
    pub fn new(inner: T) -> Mute<T>
        ensures { result.inner ≡ inner }
    {
        Mute { inner }
    }

    /// The object.
    pub fn inner(&self) -> &T
        ensures { result.now ≡ self.now.inner }
    {
        &self.inner
    }

    /// The object, which tells again.
    pub fn into_inner(self) -> T
        ensures { result ≡ self.inner }
    {
        self.inner
    }
}

impl<T: ReadTree> ReadTree for Mute<T> {
    ghost contents = { λ m. None };

    ghost fault_count = { λ m. T.fault_count m.inner };

    ghost answered = { λ m. T.answered m.inner };

    fn stat(&mut self, alloc: Global, path: &Path) -> Result<Meta, TreeError>
        ensures passed_on { IfKnown (T.contents self.old.inner) (λ log.
            Reads log (Stat path.now) result (IsMeta (current log) path.now)) }
        ensures same { T.contents self.new.inner ≡ T.contents self.old.inner }
        ensures in_range { IfOk result IsInRange }
        ensures cause { HasCause TreeError.Fault (T.fault_count self.old.inner)
            (T.fault_count self.new.inner) result }
        ensures counts { T.fault_count self.new.inner ≡ count_after (T.fault_count self.old.inner) result }
        ensures told { T.answered self.new.inner ≡ T.answered self.old.inner }
    {
        self.inner.stat(alloc, path)
    }

    fn list(&mut self, alloc: Global, path: &Path) -> Result<Children, TreeError>
        ensures passed_on { IfKnown (T.contents self.old.inner) (λ log.
            Reads log (ListFolder path.now) result
            (IsListing (current log) (found_node (current log) path.now))) }
        ensures same { T.contents self.new.inner ≡ T.contents self.old.inner }
        ensures ascending { IfOk result (λ children. IsAscending children.names) }
        ensures cause { HasCause TreeError.Fault (T.fault_count self.old.inner)
            (T.fault_count self.new.inner) result }
        ensures counts { T.fault_count self.new.inner ≡ count_after (T.fault_count self.old.inner) result }
        ensures told { T.answered self.new.inner ≡ T.answered self.old.inner }
    {
        self.inner.list(alloc, path)
    }

    fn read_at(
        &mut self,
        alloc: Global,
        path: &Path,
        offset: u64,
        into: &mut [u8],
    ) -> Result<usize, TreeError>
        ensures passed_on { IfKnown (T.contents self.old.inner) (λ log.
            Reads log (ReadAt path.now offset (length into.old)) result
            (IsRead (node (current log) (found_node (current log) path.now)).bytes offset
            into.old into.new)) }
        ensures same { T.contents self.new.inner ≡ T.contents self.old.inner }
        ensures in_room { IfOk result (λ count. count ≤ length into.old) }
        ensures cause { HasCause TreeError.Fault (T.fault_count self.old.inner)
            (T.fault_count self.new.inner) result }
        ensures counts { T.fault_count self.new.inner ≡ count_after (T.fault_count self.old.inner) result }
        ensures told { T.answered self.new.inner ≡ T.answered self.old.inner }
    {
        self.inner.read_at(alloc, path, offset, into)
    }

    fn read_link(&mut self, alloc: Global, path: &Path) -> Result<Text, TreeError>
        ensures passed_on { IfKnown (T.contents self.old.inner) (λ log. Reads log (ReadLink path.now) result
            (λ text. text ≡ (node (current log) (found_node (current log) path.now)).bytes)) }
        ensures same { T.contents self.new.inner ≡ T.contents self.old.inner }
        ensures link_text { IfOk result IsLinkText }
        ensures cause { HasCause TreeError.Fault (T.fault_count self.old.inner)
            (T.fault_count self.new.inner) result }
        ensures counts { T.fault_count self.new.inner ≡ count_after (T.fault_count self.old.inner) result }
        ensures told { T.answered self.new.inner ≡ T.answered self.old.inner }
    {
        self.inner.read_link(alloc, path)
    }

    fn faults(&self) -> u64 {
        self.inner.faults()
    }
}

impl<T: Tree> Tree for Mute<T> {
    fn make_file(&mut self, alloc: Global, path: &Path, mode: u16) -> Result<(), TreeError>
        requires mode { mode ≤ 0o7777 }
        ensures passed_on { IfKnown (T.contents self.old.inner) (λ log.
            Performs log (MakeFile path.now mode) result (T.contents self.new.inner)) }
        ensures cause { HasCause TreeError.Fault (T.fault_count self.old.inner)
            (T.fault_count self.new.inner) result }
        ensures counts { T.fault_count self.new.inner ≡ count_after (T.fault_count self.old.inner) result }
        ensures told { T.answered self.new.inner
            ≡ with_answer (MakeFile path.now mode) result (T.answered self.old.inner) }
    {
        self.inner.make_file(alloc, path, mode)
    }

    fn write_at(
        &mut self,
        alloc: Global,
        path: &Path,
        offset: u64,
        bytes: &[u8],
    ) -> Result<(), TreeError>
        requires fits { offset + length bytes.now ≤ 2 ^ 63 }
        ensures passed_on { IfKnown (T.contents self.old.inner) (λ log.
            Performs log (WriteAt path.now offset bytes.now) result (T.contents self.new.inner)) }
        ensures cause { HasCause TreeError.Fault (T.fault_count self.old.inner)
            (T.fault_count self.new.inner) result }
        ensures counts { T.fault_count self.new.inner ≡ count_after (T.fault_count self.old.inner) result }
        ensures told { T.answered self.new.inner
            ≡ with_answer (WriteAt path.now offset bytes.now) result (T.answered self.old.inner) }
    {
        self.inner.write_at(alloc, path, offset, bytes)
    }

    fn set_mode(&mut self, alloc: Global, path: &Path, mode: u16) -> Result<(), TreeError>
        requires mode { mode ≤ 0o7777 }
        ensures passed_on { IfKnown (T.contents self.old.inner) (λ log.
            Performs log (SetMode path.now mode) result (T.contents self.new.inner)) }
        ensures cause { HasCause TreeError.Fault (T.fault_count self.old.inner)
            (T.fault_count self.new.inner) result }
        ensures counts { T.fault_count self.new.inner ≡ count_after (T.fault_count self.old.inner) result }
        ensures told { T.answered self.new.inner
            ≡ with_answer (SetMode path.now mode) result (T.answered self.old.inner) }
    {
        self.inner.set_mode(alloc, path, mode)
    }

    fn make_folder(&mut self, alloc: Global, path: &Path, mode: u16) -> Result<(), TreeError>
        requires mode { mode ≤ 0o7777 }
        ensures passed_on { IfKnown (T.contents self.old.inner) (λ log.
            Performs log (MakeFolder path.now mode) result (T.contents self.new.inner)) }
        ensures cause { HasCause TreeError.Fault (T.fault_count self.old.inner)
            (T.fault_count self.new.inner) result }
        ensures counts { T.fault_count self.new.inner ≡ count_after (T.fault_count self.old.inner) result }
        ensures told { T.answered self.new.inner
            ≡ with_answer (MakeFolder path.now mode) result (T.answered self.old.inner) }
    {
        self.inner.make_folder(alloc, path, mode)
    }

    fn make_link(&mut self, alloc: Global, path: &Path, text: &str) -> Result<(), TreeError>
        requires link_text { IsLinkText text.now }
        ensures passed_on { IfKnown (T.contents self.old.inner) (λ log.
            Performs log (MakeLink path.now text.now) result (T.contents self.new.inner)) }
        ensures cause { HasCause TreeError.Fault (T.fault_count self.old.inner)
            (T.fault_count self.new.inner) result }
        ensures counts { T.fault_count self.new.inner ≡ count_after (T.fault_count self.old.inner) result }
        ensures told { T.answered self.new.inner
            ≡ with_answer (MakeLink path.now text.now) result (T.answered self.old.inner) }
    {
        self.inner.make_link(alloc, path, text)
    }

    fn rename(&mut self, alloc: Global, from: &Path, to: &Path) -> Result<(), TreeError>
        ensures passed_on { IfKnown (T.contents self.old.inner) (λ log.
            Performs log (Rename from.now to.now) result (T.contents self.new.inner)) }
        ensures cause { HasCause TreeError.Fault (T.fault_count self.old.inner)
            (T.fault_count self.new.inner) result }
        ensures counts { T.fault_count self.new.inner ≡ count_after (T.fault_count self.old.inner) result }
        ensures told { T.answered self.new.inner
            ≡ with_answer (Rename from.now to.now) result (T.answered self.old.inner) }
    {
        self.inner.rename(alloc, from, to)
    }

    fn remove_file(&mut self, alloc: Global, path: &Path) -> Result<(), TreeError>
        ensures passed_on { IfKnown (T.contents self.old.inner) (λ log.
            Performs log (RemoveFile path.now) result (T.contents self.new.inner)) }
        ensures cause { HasCause TreeError.Fault (T.fault_count self.old.inner)
            (T.fault_count self.new.inner) result }
        ensures counts { T.fault_count self.new.inner ≡ count_after (T.fault_count self.old.inner) result }
        ensures told { T.answered self.new.inner
            ≡ with_answer (RemoveFile path.now) result (T.answered self.old.inner) }
    {
        self.inner.remove_file(alloc, path)
    }

    fn remove_folder(&mut self, alloc: Global, path: &Path) -> Result<(), TreeError>
        ensures passed_on { IfKnown (T.contents self.old.inner) (λ log.
            Performs log (RemoveFolder path.now) result (T.contents self.new.inner)) }
        ensures cause { HasCause TreeError.Fault (T.fault_count self.old.inner)
            (T.fault_count self.new.inner) result }
        ensures counts { T.fault_count self.new.inner ≡ count_after (T.fault_count self.old.inner) result }
        ensures told { T.answered self.new.inner
            ≡ with_answer (RemoveFolder path.now) result (T.answered self.old.inner) }
    {
        self.inner.remove_folder(alloc, path)
    }

    fn sync_file(&mut self, alloc: Global, path: &Path) -> Result<(), TreeError>
        ensures passed_on { IfKnown (T.contents self.old.inner) (λ log.
            Performs log (SyncFile path.now) result (T.contents self.new.inner)) }
        ensures cause { HasCause TreeError.Fault (T.fault_count self.old.inner)
            (T.fault_count self.new.inner) result }
        ensures counts { T.fault_count self.new.inner ≡ count_after (T.fault_count self.old.inner) result }
        ensures told { T.answered self.new.inner
            ≡ with_answer (SyncFile path.now) result (T.answered self.old.inner) }
    {
        self.inner.sync_file(alloc, path)
    }

    fn sync_folder(&mut self, alloc: Global, path: &Path) -> Result<(), TreeError>
        ensures passed_on { IfKnown (T.contents self.old.inner) (λ log.
            Performs log (SyncFolder path.now) result (T.contents self.new.inner)) }
        ensures cause { HasCause TreeError.Fault (T.fault_count self.old.inner)
            (T.fault_count self.new.inner) result }
        ensures counts { T.fault_count self.new.inner ≡ count_after (T.fault_count self.old.inner) result }
        ensures told { T.answered self.new.inner
            ≡ with_answer (SyncFolder path.now) result (T.answered self.old.inner) }
    {
        self.inner.sync_folder(alloc, path)
    }
}

impl<T: Source> Source for Mute<T> {
    ghost left = { λ m. None };

    ghost fault_count = { λ m. T.fault_count m.inner };

    fn take(&mut self, into: &mut [u8]) -> Result<usize, SourceFault>
        ensures passed_on { IfKnown (T.left self.old.inner) (λ bytes.
            HasTaken bytes into.new result (T.left self.new.inner)) }
        ensures in_room { IfOk result (λ count. count ≤ length into.old) }
        ensures cause { HasCause (record {}) (T.fault_count self.old.inner)
            (T.fault_count self.new.inner) result }
    {
        self.inner.take(into)
    }

    fn next_is(&mut self, byte: u8) -> bool
        ensures passed_on { IfKnown (T.left self.old.inner) (λ bytes. result ≡ is_next byte bytes) }
        ensures inner_stays { T.left self.new.inner ≡ T.left self.old.inner }
        ensures counts { T.fault_count self.new.inner ≡ T.fault_count self.old.inner }
    {
        self.inner.next_is(byte)
    }

    fn faults(&self) -> u64 {
        self.inner.faults()
    }
}

impl<T: Sink> Sink for Mute<T> {
    ghost given = { λ m. None };

    ghost fault_count = { λ m. T.fault_count m.inner };

    fn put(&mut self, alloc: Global, bytes: &[u8]) -> Result<(), SinkError>
        ensures passed_on { IfKnown (T.given self.old.inner) (λ before.
            HasPut before bytes.now result (T.given self.new.inner)) }
        ensures cause { HasCause SinkError.Fault (T.fault_count self.old.inner)
            (T.fault_count self.new.inner) result }
    {
        self.inner.put(alloc, bytes)
    }

    fn size(&mut self) -> Option<(u16, u16)>
        ensures inner_stays { T.given self.new.inner ≡ T.given self.old.inner }
        ensures counts { T.fault_count self.new.inner ≡ T.fault_count self.old.inner }
    {
        self.inner.size()
    }

    fn faults(&self) -> u64 {
        self.inner.faults()
    }
}

impl<T: Spawner> Spawner for Mute<T> {
    ghost runs = { λ m. None };

    ghost fault_count = { λ m. T.fault_count m.inner };

    fn run(&mut self, alloc: Global, folder: &Path, command: &str) -> Result<RunOutcome, SpawnError>
        ensures passed_on { IfKnown (T.runs self.old.inner) (λ before.
            HasRun before (record { folder = folder.now; command = command.now }) result
            (T.runs self.new.inner)) }
        ensures kept { IfOk result (λ outcome. length outcome.output ≤ OUTPUT_BYTES) }
        ensures cause { HasCause SpawnError.Fault (T.fault_count self.old.inner)
            (T.fault_count self.new.inner) result }
    {
        self.inner.run(alloc, folder, command)
    }

    fn faults(&self) -> u64 {
        self.inner.faults()
    }
}
