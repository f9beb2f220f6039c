//! Folders with a change of names that no sync has brought onto the disk. The folder of a name joins them
//! before the name is changed, and leaves them with its sync, or where it is gone itself; that of a job
//! that ended without one stays, until a later job syncs it. A thing that is given a mode, a file too,
//! stands among them in the same way.
ghost use Rattle.std.specs.Prelude.{◌≡◌, ◌+◌, ◌<◌, ◌^◌, ◌-◌, ◌||◌, ◌&&◌, [], length, not, remove, slice_get};
ghost use Rattle.std.specs.Prelude.{take, true, Some, IfNone, IfOk, IfSome, OnErr, OnOk, if◌then◌else◌};
ghost use Rattle.job_reports.specs.Paths.{without};
ghost use Rattle.job_unsynced.specs.Folders.{IsOwn, IsOwnAt, NoneBetween, NoneOf};
ghost use Rattle.job_unsynced.specs.Folders.{after_try, is_of, is_one_of, joined_folders};

use job_reports::Did;
use mc_text::{NoMemory, Path};
use std::alloc::Global;
use std::marker::Model;
use tree_trait::TreeError;

/// Some folders, each once, in the order in which they joined.
#[derive(Debug, Drop)]
pub struct Dirty {
    folders: Vec<Path>,
}

impl Model for Dirty {
    ghost use Rattle.std.specs.Prelude.{List};
    ghost use Rattle.mc_text.specs.Routes.{Route};

    ghost Value = { List Route };

    ghost view = { λ u. u.folders.items };
}

impl Dirty {
    /// None yet. It takes no memory.
    pub fn new(alloc: Global) -> Dirty
        ensures { result ≡ [] }
    {
        Dirty {
            folders: Vec::new(alloc),
        }
    }

    /// How many they are.
    pub fn len(&self) -> usize
        ensures { result ≡ length self.now }
    {
        self.folders.len()
    }

    /// The folders.
    pub fn folders(&self) -> &[Path]
        ensures { result.now ≡ self.now }
    {
        self.folders.as_slice()
    }

    /// One more, unless it is one of them; whether it joined.
    pub fn join(&mut self, alloc: Global, folder: &Path) -> Result<bool, NoMemory>
        ensures joined { OnOk result (self.new ≡ joined_folders folder.now self.old) }
        ensures back { IfOk result (λ more.
            (if more then take (length self.new - 1) self.new else self.new) ≡ self.old) }
        ensures refused { OnErr result (self.new ≡ self.old) }
    {
        if self.holds(folder) {
            return Ok(false);
        }
        let folder = folder.copy(alloc)?;
        self.folders.push(folder)?;
        Ok(true)
    }

    /// Whether this is one of them.
    fn holds(&self, folder: &Path) -> bool
        ensures { result ≡ is_one_of folder.now self.now }
    {
        self.folders.iter().any(|kept| kept.same(folder))
    }

    /// The one that joined last leaves them again, if one did.
    pub fn drop_last_if(&mut self, more: bool)
        ensures { self.new ≡ (if more then take (length self.old - 1) self.old else self.old) }
    {
        if more {
            self.folders.pop();
        }
    }

    /// A folder was synced, or is gone.
    pub fn remove(&mut self, folder: &Path)
        ensures { self.new ≡ without folder.now self.old }
    {
        self.folders.retain(|kept| !kept.same(folder));
    }

    /// The same, if it was.
    pub fn remove_if(&mut self, synced: bool, folder: &Path)
        ensures { self.new ≡ (if synced then without folder.now self.old else self.old) }
    {
        if synced {
            self.remove(folder);
        }
    }

    /// The sync of a folder was tried in a last step, if this is the report of it, and may have been refused.
    pub fn note_try(&mut self, did: &Did, left: Option<TreeError>, folder: &Path)
        ensures { self.new ≡ after_try did.now left folder.now self.old }
    {
        match did {
            Did::Barrier => self.remove_if(left.is_none(), folder),
            _ => {}
        }
    }

    /// The first that is this folder, or the top or below that.
    pub fn first_of(&self, folder: &Path, top: &Path) -> Option<&Path>
        ensures some { IfSome result (λ kept. IsOwn folder.now top.now self.now kept.now) }
        ensures none { IfNone result (NoneOf folder.now top.now self.now) }
    {
        let mut rest = self.folders.as_slice();
        while let Some((first, more)) = rest.split_first() {
            if is_of_deletion(first, folder, top) {
                return Some(first);
            }
            rest = more;
        }
        None
    }
}

impl Dirty {
    /// From this one on, where the first stands that is this folder, or the top or below that.
    pub fn first_from(&self, from: usize, folder: &Path, top: &Path) -> Option<usize>
        ensures own { IfSome result (IsOwnAt folder.now top.now self.now from) }
        ensures none { IfNone result (NoneBetween folder.now top.now self.now from (length self.now)) }
        ensures fits { IfSome result (λ at. at + 1 < 2 ^ 64) }
    {
        let mut at = from;
        while at < self.folders.len() {
            if is_of_deletion(self.get(at), folder, top) {
                return Some(at);
            }
            at += 1;
        }
        None
    }

    /// The one that stands there.
    pub fn get(&self, at: usize) -> &Path
        requires { at < length self.now }
        ensures { slice_get self.now at ≡ Some result.now }
    {
        &self.folders[at]
    }

    /// The one that stands there was synced.
    pub fn remove_at(&mut self, at: usize)
        requires { at < length self.old }
        ensures { IfSome (slice_get self.old at) (λ folder. self.new ≡ without folder self.old) }
    {
        let synced = self.folders.remove(at);
        self.remove(&synced);
    }
}

/// Whether it is this folder, or the top or below that.
fn is_of_deletion(kept: &Path, folder: &Path, top: &Path) -> bool
    ensures { result ≡ is_of folder.now top.now kept.now }
{
    kept.same(folder) || top.is_prefix_of(kept)
}

/// The one and not the other. (The prover keeps no branch of a call.)
pub fn but_not(one: bool, other: bool) -> bool
    ensures { result ≡ (one && not other) }
{
    one && !other
}
