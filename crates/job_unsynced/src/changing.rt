//! One change with the list of what is dirty: what it makes dirty joins the list before the change, when
//! there may still be no memory, and leaves it with its sync.
ghost use Rattle.std.specs.Prelude.{◌≡◌, IfOk, OnErr, false, true};
ghost use Rattle.job_unsynced.specs.Changes.{IsReadied, dirty_after_step};

use crate::dirty::{Dirty, but_not};
use mc_text::{NoMemory, Path};
use std::alloc::Global;

/// What was done to the list before a step.
#[derive(Clone, Copy, Debug, Drop)]
pub struct Readied {
    /// What the step may make dirty joined it just now.
    pub(crate) joined: bool,
    /// The change was made before, and no sync has brought it onto the disk.
    pub(crate) was_dirty: bool,
}

impl Dirty {
    /// Readies the list for a step of the work that makes one change, where nothing was changed
    /// yet, or where this is dirty.
    pub fn ready(
        &mut self,
        alloc: Global,
        changed: &Path,
        is_fresh: bool,
        is_dirty: bool,
    ) -> Result<Readied, NoMemory>
        ensures ready { IfOk result (IsReadied is_fresh is_dirty changed.now self.old self.new) }
        ensures refused { OnErr result (self.new ≡ self.old) }
        ensures fresh { OnErr result (is_fresh ≡ true) }
    {
        if is_fresh {
            let joined = self.join(alloc, changed)?;
            return Ok(Readied {
                joined,
                was_dirty: false,
            });
        }
        Ok(Readied {
            joined: false,
            was_dirty: is_dirty,
        })
    }

    /// Follows that step, after which this is dirty or not.
    pub fn follow(&mut self, readied: Readied, is_dirty: bool, changed: &Path)
        ensures { self.new ≡ dirty_after_step readied is_dirty changed.now self.old }
    {
        self.drop_last_if(but_not(readied.joined, is_dirty));
        self.remove_if(but_not(readied.was_dirty, is_dirty), changed);
    }
}
