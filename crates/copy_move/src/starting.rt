//! The work of a job that starts.
ghost use Rattle.std.specs.Prelude.{◌≡◌, IfOk, Some, true};
ghost use Rattle.job_reports.specs.declared.job.Job.TheVariants as plan;
ghost use Rattle.job_reports.specs.Jobs.{is_workable};
ghost use Rattle.copy_move.specs.Jobs.{IsGoing, first_work};

use crate::work::Work;
use copy_job::SubtreeCopy;
use delete_job::TreeDeletion;
use emptied_job::FolderRemoval;
use job_reports::{Job, Pairs};
use make_job::{NewThing, ThingMaking};
use mc_text::{NoMemory, Path, Paths, Text};
use mode_job::ModeSetting;
use move_job::ThingMoving;
use std::alloc::Global;

/// The work of the plan of one source.
pub(crate) fn begun_work(alloc: Global, source: &Job, id: u32) -> Result<Work, NoMemory>
    requires { is_workable source.now ≡ true }
    ensures { IfOk result (λ work. (first_work id source.now ≡ Some work) × IsGoing work) }
{
    match source {
        Job::Copy(pairs) => copy_of(alloc, pairs, id),
        Job::Move(pairs) => move_of(alloc, pairs),
        Job::Delete(paths) => deletion_of(alloc, paths),
        Job::MakeFolder(path) => folder_of(alloc, path),
        Job::MakeLink(path, text) => link_of(alloc, path, text),
        Job::SetMode(paths, mode) => setting_of(alloc, paths, *mode),
        Job::RemoveEmptied(path) => emptied_of(alloc, path),
    }
}

/// The copy of one thing.
fn copy_of(alloc: Global, pairs: &Pairs, id: u32) -> Result<Work, NoMemory>
    requires { is_workable (plan.Copy pairs.now) ≡ true }
    ensures { IfOk result (λ work. (first_work id (plan.Copy pairs.now) ≡ Some work) × IsGoing work) }
{
    let [pair] = pairs.0.as_slice() else {
        unreachable!()
    };
    let top = pair.copy(alloc)?;
    Ok(Work::Copy(SubtreeCopy::begin(alloc, id, top)?))
}

/// The move of one thing.
fn move_of(alloc: Global, pairs: &Pairs) -> Result<Work, NoMemory>
    requires { is_workable (plan.Move pairs.now) ≡ true }
    ensures { IfOk result (λ work. (first_work 0 (plan.Move pairs.now) ≡ Some work) × IsGoing work) }
{
    let [pair] = pairs.0.as_slice() else {
        unreachable!()
    };
    let Some(source_folder) = pair.source.parent(alloc)? else {
        unreachable!()
    };
    let Some(folder) = pair.target.parent(alloc)? else {
        unreachable!()
    };
    Ok(Work::Move(ThingMoving::new(pair.copy(alloc)?, source_folder, folder)))
}

/// The deletion of one thing.
fn deletion_of(alloc: Global, paths: &Paths) -> Result<Work, NoMemory>
    requires { is_workable (plan.Delete paths.now) ≡ true }
    ensures { IfOk result (λ work. (first_work 0 (plan.Delete paths.now) ≡ Some work) × IsGoing work) }
{
    let [path] = paths.as_slice() else {
        unreachable!()
    };
    let Some(folder) = path.parent(alloc)? else {
        unreachable!()
    };
    Ok(Work::Delete(TreeDeletion::new(alloc, path.copy(alloc)?, folder)))
}

/// The setting of the mode of one thing.
fn setting_of(alloc: Global, paths: &Paths, mode: u16) -> Result<Work, NoMemory>
    requires { is_workable (plan.SetMode paths.now mode) ≡ true }
    ensures { IfOk result (λ work. (first_work 0 (plan.SetMode paths.now mode) ≡ Some work) × IsGoing work) }
{
    let [path] = paths.as_slice() else {
        unreachable!()
    };
    let Some(folder) = path.parent(alloc)? else {
        unreachable!()
    };
    Ok(Work::SetMode(ModeSetting::new(path.copy(alloc)?, folder, mode)))
}

/// The making of one folder.
fn folder_of(alloc: Global, path: &Path) -> Result<Work, NoMemory>
    requires { is_workable (plan.MakeFolder path.now) ≡ true }
    ensures { IfOk result (λ work. (first_work 0 (plan.MakeFolder path.now) ≡ Some work) × IsGoing work) }
{
    let Some(folder) = path.parent(alloc)? else {
        unreachable!()
    };
    Ok(Work::Make(ThingMaking::new(path.copy(alloc)?, folder, NewThing::Folder)))
}

/// The making of one link.
fn link_of(alloc: Global, path: &Path, text: &Text) -> Result<Work, NoMemory>
    requires { is_workable (plan.MakeLink path.now text.now) ≡ true }
    ensures { IfOk result
        (λ work. (first_work 0 (plan.MakeLink path.now text.now) ≡ Some work) × IsGoing work) }
{
    let Some(folder) = path.parent(alloc)? else {
        unreachable!()
    };
    let thing = NewThing::Link(text.copy(alloc)?);
    Ok(Work::Make(ThingMaking::new(path.copy(alloc)?, folder, thing)))
}

/// The removal of a folder that a merge has emptied.
fn emptied_of(alloc: Global, path: &Path) -> Result<Work, NoMemory>
    requires { is_workable (plan.RemoveEmptied path.now) ≡ true }
    ensures { IfOk result (λ work. (first_work 0 (plan.RemoveEmptied path.now) ≡ Some work) × IsGoing work) }
{
    let Some(folder) = path.parent(alloc)? else {
        unreachable!()
    };
    Ok(Work::RemoveEmptied(FolderRemoval::new(path.copy(alloc)?, folder)))
}
