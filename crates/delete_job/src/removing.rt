//! Removals, and folders that stay.
ghost use Rattle.std.specs.Prelude.{◌≡◌, ◌-◌, false, true, length, take, IfOk, OnErr, OnOk, if◌then◌else◌};
ghost use Rattle.job_reports.specs.Paths.{folder_of};
ghost use Rattle.delete_job.specs.Descending.{IsPlain, MayLook};
ghost use Rattle.job_unsynced.specs.Folders.{joined_folders};
ghost use Rattle.delete_job.specs.Standing.{Decides, End, Leaves, Thing, at_barrier};
ghost use Rattle.delete_job.specs.Standing.{item as next_item, worked_folder};
ghost use Rattle.delete_job.specs.TreeDeletionSteps.{IsThing, KeepsRest, Passes, Working};

use crate::deletion::{Deletion, Depth, Stage, stage_after};
use job_reports::{Did, StepResult, out_of_memory};
use job_unsynced::{Dirty, refused, with_call, without_call};
use mc_text::{NoMemory, Path};
use std::alloc::Global;
use tree_trait::Tree;

impl Deletion {
    /// Removes a thing that is no folder.
    pub(crate) fn remove_thing<T: Tree>(
        &mut self,
        alloc: Global,
        tree: &mut T,
        dirty: &mut Dirty,
        path: Path,
    ) -> StepResult
        requires next { next_item self.old ≡ Thing path }
        requires may { MayLook self.old.depth self.old.walk.place path }
        requires plain { IsPlain (T.contents tree.old) path }
        requires going { at_barrier self.old.stage ≡ false }
        ensures { Working self.old self.new result.did result.calls dirty.old dirty.new
            (T.contents tree.old) (T.contents tree.new) (T.fault_count tree.old) (T.fault_count tree.new) }
    {
        let Ok(joined) = join_holder(alloc, dirty, &path) else {
            return without_call(Did::Troubled(out_of_memory(false)));
        };
        match tree.remove_file(alloc, &path) {
            Ok(()) => {
                self.pass();
                self.stage = stage_after(Stage::Going, &self.path, &path);
                with_call(Did::Removed(path))
            }
            Err(error) => {
                dirty.drop_last_if(joined);
                refused(error, path, false)
            }
        }
    }

    /// The thing that was taken up is gone.
    fn pass(&mut self)
        requires thing { IsThing (next_item self.old) }
        ensures { Passes false self.old self.new }
    {
        match self.depth {
            Depth::Top => self.stay(),
            Depth::Inside => self.pass_name(false),
        }
    }

    /// Of the thing that is deleted nothing is left to be met.
    fn stay(&mut self)
        requires depth { self.old.depth ≡ Depth.Top }
        ensures { Passes false self.old self.new }
    {}

    /// The next name is done with.
    pub(crate) fn pass_name(&mut self, left: bool)
        requires depth { self.old.depth ≡ Depth.Inside }
        requires thing { IsThing (next_item self.old) }
        ensures { Passes left self.old self.new }
    {
        self.walk.pass(left);
    }

    /// The folder that is worked is removed, unless something in it was left: then it stays.
    pub(crate) fn end_folder<T: Tree>(
        &mut self,
        alloc: Global,
        tree: &mut T,
        dirty: &mut Dirty,
    ) -> StepResult
        requires inside { self.old.depth ≡ Depth.Inside }
        requires next { next_item self.old ≡ End (worked_folder self.old.path self.old.walk.place) }
        requires going { at_barrier self.old.stage ≡ false }
        ensures { Working self.old self.new result.did result.calls dirty.old dirty.new
            (T.contents tree.old) (T.contents tree.new) (T.fault_count tree.old) (T.fault_count tree.new) }
    {
        let Ok(path) = self.worked().copy(alloc) else {
            return without_call(Did::Troubled(out_of_memory(false)));
        };
        if self.walk.is_spared() {
            return without_call(self.keep_folder(path));
        }
        self.remove_folder(alloc, tree, dirty, path)
    }

    /// The folder that is worked.
    pub(crate) fn worked(&self) -> &Path
        ensures { result.now ≡ worked_folder self.now.path self.now.walk.place }
    {
        if self.walk.is_outermost() {
            return &self.path;
        }
        self.walk.folder()
    }

    fn keep_folder(&mut self, path: Path) -> Did
        requires inside { self.old.depth ≡ Depth.Inside }
        requires next { next_item self.old ≡ End path }
        ensures did { result ≡ Did.Kept path }
        ensures decides { Decides self.old true path self.old.stage self.new }
    {
        self.leave(true);
        self.stage = stage_after(self.stage, &self.path, &path);
        Did::Kept(path)
    }

    fn remove_folder<T: Tree>(
        &mut self,
        alloc: Global,
        tree: &mut T,
        dirty: &mut Dirty,
        path: Path,
    ) -> StepResult
        requires inside { self.old.depth ≡ Depth.Inside }
        requires next { next_item self.old ≡ End path }
        requires bare { self.old.walk.place.inner.spared ≡ false }
        ensures { Working self.old self.new result.did result.calls dirty.old dirty.new
            (T.contents tree.old) (T.contents tree.new) (T.fault_count tree.old) (T.fault_count tree.new) }
    {
        let Ok(joined) = join_holder(alloc, dirty, &path) else {
            return without_call(Did::Troubled(out_of_memory(false)));
        };
        match tree.remove_folder(alloc, &path) {
            Ok(()) => {
                dirty.remove(&path);
                self.leave(false);
                self.stage = stage_after(Stage::Going, &self.path, &path);
                with_call(Did::Removed(path))
            }
            Err(error) => {
                dirty.drop_last_if(joined);
                refused(error, path, false)
            }
        }
    }

    /// The folder that is worked is done with.
    pub(crate) fn leave(&mut self, left: bool)
        ensures left { Leaves left self.old.walk.place self.new.walk.place }
        ensures rest { KeepsRest self.old self.new }
    {
        let _left = self.walk.leave(left);
    }
}

/// The folder that holds what stands at a path joins the dirty ones; whether it did.
fn join_holder(alloc: Global, dirty: &mut Dirty, path: &Path) -> Result<bool, NoMemory>
    ensures joined { OnOk result (dirty.new ≡ joined_folders (folder_of path.now) dirty.old) }
    ensures back { IfOk result (λ more.
        (if more then take (length dirty.new - 1) dirty.new else dirty.new) ≡ dirty.old) }
    ensures refused { OnErr result (dirty.new ≡ dirty.old) }
{
    let holder = holder_of(alloc, path)?;
    dirty.join(alloc, &holder)
}

/// The folder that holds what stands at a path.
fn holder_of(alloc: Global, path: &Path) -> Result<Path, NoMemory>
    ensures { IfOk result (λ folder. folder ≡ folder_of path.now) }
{
    match path.parent(alloc)? {
        Some(folder) => Ok(folder),
        None => Ok(Path::root(alloc)),
    }
}
