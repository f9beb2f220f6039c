//! The copy of a tree as it stands.
ghost use Rattle.std.specs.Prelude.{◌≡◌, false, true, IfOk};
ghost use Rattle.copy_folders.specs.FolderCopying.{is_dirty as is_dirty_state};
ghost use Rattle.copy_tree.specs.Standing.{at_barrier, begun_tree_copy, is_fresh, seen_copy};

use crate::item::ItemAtWork;
use copy_folders::{FolderCopy, Stack};
use mc_text::{Name, Names, NoMemory, Path};
use std::alloc::Global;
use tree_walk::Opened;

/// Whether anything was changed yet.
#[derive(Clone, Copy, Debug, Drop)]
pub enum Stage {
    Begin,
    Going,
}

/// A thing by the folder that holds it, and its name there.
#[derive(Drop)]
pub struct Named {
    pub folder: Path,
    pub name: Name,
}

/// The copy of a thing with all that lies in it, by the job with this number.
#[derive(Debug, Drop)]
pub struct TreeCopy {
    pub job: u32,
    /// The name of the copy, which may be another than that of the source.
    pub name: Name,
    pub stage: Stage,
    pub item: ItemAtWork,
    pub stack: Stack,
}

impl TreeCopy {
    /// A copy of the thing at `source` to `target`, at which nothing stands.
    pub fn new(alloc: Global, job: u32, source: Named, target: Named) -> Result<TreeCopy, NoMemory>
        ensures { IfOk result (λ copy. seen_copy copy ≡ begun_tree_copy job source target) }
    {
        let folder = source.folder.copy(alloc)?;
        let mut names = Vec::new(alloc);
        names.push(source.name)?;
        Ok(TreeCopy {
            job,
            name: target.name,
            stage: Stage::Begin,
            item: ItemAtWork::Next,
            stack: Stack::new(
                alloc,
                Opened::new(folder, Names(names)),
                FolderCopy::merging(source.folder, target.folder),
            ),
        })
    }

    /// The target of the folder that is worked, in which names are changed.
    pub fn folder(&self) -> &Path
        ensures { result.now ≡ self.now.stack.levels.inner.copy.target }
    {
        self.stack.target()
    }

    /// Whether nothing was changed yet.
    pub fn is_fresh(&self) -> bool
        ensures { result ≡ is_fresh self.now.stage }
    {
        match self.stage {
            Stage::Begin => true,
            Stage::Going => false,
        }
    }

    /// Whether that folder has a change of names or of its mode that no sync has brought onto the disk.
    pub fn is_dirty(&self) -> bool
        ensures { result ≡ is_dirty_state self.now.stack.levels.inner.copy.names }
    {
        self.stack.is_dirty()
    }

    /// Whether the next call is at a barrier, where nothing can be skipped.
    pub fn is_at_barrier(&self) -> bool
        ensures { result ≡ at_barrier (seen_copy self.now) }
    {
        match &self.item {
            ItemAtWork::Next => self.stack.is_at_barrier(),
            ItemAtWork::File(copy) => copy.is_at_barrier(),
            ItemAtWork::Link(copy) => copy.is_at_barrier(),
            ItemAtWork::Stays(_) => true,
        }
    }
}
