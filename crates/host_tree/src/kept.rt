//! Files that are kept open, by their paths.
ghost use Rattle.std.specs.Prelude.{◌≡◌, ◌<◌, ◌≤◌, [], length, IfOk, IfSome, OnOk, vec_len, vec_capacity};
ghost use Rattle.host_tree.specs.declared.kept.TheConstants.{KEPT_FILES};
ghost use Rattle.host_tree.specs.Kept.{IsOpenAt, HasRoom, forgetting, forgetting_below, newest, with_newest};

use mc_text::Path;
use std::alloc::Global;
use tree_trait::TreeError;

/// What a file was opened for.
#[derive(Clone, Copy, Debug, PartialEq, Eq)]
pub enum Access {
    Read,
    /// Writes of a file that has no set-id bits, so that no write changes its mode.
    WritePlain,
    /// Writes of a file that may have them.
    Write,
    /// A sync, or a change of the mode.
    Sync,
}

/// An open file, and the path by which it was opened.
#[derive(Drop)]
pub struct KeptFile<F> {
    pub path: Path,
    pub access: Access,
    pub file: F,
}

/// The most files that are kept.
pub const KEPT_FILES: usize = 128;

/// Open files, the oldest first, of which no two have one path.
#[derive(Drop)]
pub struct Kept<F> {
    pub files: Vec<KeptFile<F>>,
    pub ghost few: { vec_len files ≤ KEPT_FILES },
}

impl<F: Drop> Kept<F> {
    /// None yet. It takes no memory.
    pub fn new(alloc: Global) -> Kept<F>
        ensures { result.files.items ≡ [] }
    {
        Kept {
            files: Vec::new(alloc),
        }
    }

    /// The file that is open at a path.
    pub fn at(&self, path: &Path) -> Option<&KeptFile<F>>
        ensures { IfSome result (λ kept. IsOpenAt self.now.files.items path.now kept.now) }
    {
        for kept in &self.files {
            if kept.path.same(path) {
                return Some(kept);
            }
        }
        None
    }

    /// Whether a file is open at a path to be written.
    pub fn is_written(&self, path: &Path) -> bool {
        match self.at(path) {
            Some(kept) => matches!(kept.access, Access::WritePlain | Access::Write),
            None => false,
        }
    }

    /// The file that is open at a path may have set-id bits from now on.
    pub fn note_set_id(&mut self, path: &Path)
        ensures { length self.new.files.items ≡ length self.old.files.items }
    {
        if let Some(at) = self.files.iter().position(|kept| kept.path.same(path)) {
            if self.files[at].access == Access::WritePlain {
                self.files[at].access = Access::Write;
            }
        }
    }

    /// Takes room for one more, with a path of its own for it.
    pub fn room_for(&mut self, alloc: Global, path: &Path) -> Result<Path, TreeError>
        ensures same { self.new.files.items ≡ self.old.files.items }
        ensures room { OnOk result (HasRoom self.new.files) }
        ensures copy { IfOk result (λ copy. copy ≡ path.now) }
    {
        self.files.reserve(1)?;
        match path.copy(alloc) {
            Ok(copy) => Ok(copy),
            Err(_) => Err(TreeError::Memory),
        }
    }

    /// Keeps one more file in place of what was kept of its path. Where they become too
    /// many, the oldest is closed.
    pub fn keep(&mut self, file: KeptFile<F>)
        requires { HasRoom self.old.files }
        ensures { self.new.files.items ≡ with_newest self.old.files.items file }
    {
        self.forget(&file.path);
        self.close_oldest();
        let _kept = self.files.push(file);
    }

    /// Closes the oldest, where no more may be kept.
    fn close_oldest(&mut self)
        ensures files { self.new.files.items ≡ newest self.old.files.items }
        ensures few { vec_len self.new.files < KEPT_FILES }
        ensures fewer { vec_len self.new.files ≤ vec_len self.old.files }
        ensures room { vec_capacity self.new.files ≡ vec_capacity self.old.files }
    {
        if self.files.len() >= KEPT_FILES {
            self.files.remove(0);
        }
    }

    /// Closes what is open at a path.
    pub fn forget(&mut self, path: &Path)
        ensures files { self.new.files.items ≡ forgetting self.old.files.items path.now }
        ensures fewer { vec_len self.new.files ≤ vec_len self.old.files }
        ensures room { vec_capacity self.new.files ≡ vec_capacity self.old.files }
    {
        self.files.retain(|kept| !kept.path.same(path));
    }

    /// Closes what is open at a path and below it.
    pub fn forget_below(&mut self, folder: &Path)
        ensures { self.new.files.items ≡ forgetting_below self.old.files.items folder.now }
    {
        self.files.retain(|kept| !folder.is_prefix_of(&kept.path));
    }

    /// Closes all.
    pub fn forget_all(&mut self)
        ensures { self.new.files.items ≡ [] }
    {
        self.files.clear();
    }
}
