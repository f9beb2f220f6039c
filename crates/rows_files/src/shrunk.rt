//! A tree whose files shrink after they were looked at.
use mc_text::{Path, Text};
use std::alloc::Global;
use tree_trait::{Children, Meta, ReadTree, Tree, TreeError};

/// A tree that says what size its files have, but gives no byte of them from `end` on. It tells nothing of
/// what it holds: that would be a lie.
#[derive(Drop)]
pub struct Shrunk<T> {
    inner: T,
    end: u64,
}

impl<T> Shrunk<T> {
    /// Lets the files of a tree end there.
    pub fn new(inner: T, end: u64) -> Shrunk<T> {
        Shrunk { inner, end }
    }

    /// The tree, whose files are as they were.
    pub fn into_inner(self) -> T {
        self.inner
    }
}

impl<T: ReadTree> ReadTree for Shrunk<T> {
    ghost use Rattle.std.specs.Prelude.{None};

    ghost contents = { λ s. None };

    ghost fault_count = { λ s. T.fault_count s.inner };

    ghost answered = { λ s. T.answered s.inner };

    fn stat(&mut self, alloc: Global, path: &Path) -> Result<Meta, TreeError> {
        self.inner.stat(alloc, path)
    }

    fn list(&mut self, alloc: Global, path: &Path) -> Result<Children, TreeError> {
        self.inner.list(alloc, path)
    }

    fn read_at(
        &mut self,
        alloc: Global,
        path: &Path,
        offset: u64,
        into: &mut [u8],
    ) -> Result<usize, TreeError> {
        let count = self.inner.read_at(alloc, path, offset, into)?;
        Ok((count as u64).min(self.end.saturating_sub(offset)) as usize)
    }

    fn read_link(&mut self, alloc: Global, path: &Path) -> Result<Text, TreeError> {
        self.inner.read_link(alloc, path)
    }

    fn faults(&self) -> u64 {
        self.inner.faults()
    }
}

impl<T: Tree> Tree for Shrunk<T> {
    fn make_file(&mut self, alloc: Global, path: &Path, mode: u16) -> Result<(), TreeError> {
        self.inner.make_file(alloc, path, mode)
    }

    fn write_at(
        &mut self,
        alloc: Global,
        path: &Path,
        offset: u64,
        bytes: &[u8],
    ) -> Result<(), TreeError> {
        self.inner.write_at(alloc, path, offset, bytes)
    }

    fn set_mode(&mut self, alloc: Global, path: &Path, mode: u16) -> Result<(), TreeError> {
        self.inner.set_mode(alloc, path, mode)
    }

    fn make_folder(&mut self, alloc: Global, path: &Path, mode: u16) -> Result<(), TreeError> {
        self.inner.make_folder(alloc, path, mode)
    }

    fn make_link(&mut self, alloc: Global, path: &Path, text: &str) -> Result<(), TreeError> {
        self.inner.make_link(alloc, path, text)
    }

    fn rename(&mut self, alloc: Global, from: &Path, to: &Path) -> Result<(), TreeError> {
        self.inner.rename(alloc, from, to)
    }

    fn remove_file(&mut self, alloc: Global, path: &Path) -> Result<(), TreeError> {
        self.inner.remove_file(alloc, path)
    }

    fn remove_folder(&mut self, alloc: Global, path: &Path) -> Result<(), TreeError> {
        self.inner.remove_folder(alloc, path)
    }

    fn sync_file(&mut self, alloc: Global, path: &Path) -> Result<(), TreeError> {
        self.inner.sync_file(alloc, path)
    }

    fn sync_folder(&mut self, alloc: Global, path: &Path) -> Result<(), TreeError> {
        self.inner.sync_folder(alloc, path)
    }
}
