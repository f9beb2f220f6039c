//! What is left as it is, and what is tried again.
ghost use Rattle.std.specs.Prelude.{◌≡◌, false};
ghost use Rattle.carry_job.specs.CarrySteps.{SkipsAt};
ghost use Rattle.carry_job.specs.Carryings.{IsFileOf, IsLinkOf, IsOwn, has_copy, skipped_stage as skipped_to};
ghost use Rattle.carry_job.specs.Carryings.{taken_anew as stage_anew};
ghost use Rattle.carry_job.specs.declared.stage.CarryStage.TheVariants as Carry;

use crate::beginning::passed;
use crate::stage::{CarryStage, is_barrier};
use copy_file::{CopyPaths, FileCopy};
use copy_link::LinkCopy;
use job_reports::{Cause, Did, out_of_memory};
use std::alloc::Global;

/// The report of a skip, and where the carrying stands then.
#[derive(Debug, Drop)]
pub(crate) struct AfterSkip {
    pub(crate) did: Did,
    pub(crate) stage: CarryStage,
}

/// The thing is not carried. A part that stands is to be removed.
pub(crate) fn skip(alloc: Global, places: &CopyPaths, stage: CarryStage, cause: Cause) -> AfterSkip
    requires own { IsOwn places.now stage }
    ensures skips { SkipsAt places.now stage cause result.did result.stage }
    ensures own { IsOwn places.now result.stage }
{
    match stage {
        CarryStage::File(copy) => skip_file(alloc, places, copy, cause),
        CarryStage::Link(copy) => skip_link(alloc, places, copy, cause),
        CarryStage::Take { folder } => pass(alloc, places, CarryStage::Take { folder }, cause),
        CarryStage::SyncTarget => pass(alloc, places, CarryStage::SyncTarget, cause),
        CarryStage::Remove => pass(alloc, places, CarryStage::Remove, cause),
        CarryStage::SyncSource => pass(alloc, places, CarryStage::SyncSource, cause),
        CarryStage::Finish => pass(alloc, places, CarryStage::Finish, cause),
        CarryStage::Settle => pass(alloc, places, CarryStage::Settle, cause),
        CarryStage::PassedOver => pass(alloc, places, CarryStage::PassedOver, cause),
        CarryStage::Stays(part) => pass(alloc, places, CarryStage::Stays(part), cause),
    }
}

/// The part of a file is to be removed.
fn skip_file(alloc: Global, places: &CopyPaths, copy: FileCopy, cause: Cause) -> AfterSkip
    requires own { IsFileOf places.now copy }
    ensures skips { SkipsAt places.now (Carry.File copy) cause result.did result.stage }
    ensures own { IsOwn places.now result.stage }
{
    let _places = places;
    let mut copy = copy;
    let did = copy.skip(alloc, cause);
    AfterSkip {
        did,
        stage: CarryStage::File(copy),
    }
}

/// The part of a link is to be removed.
fn skip_link(alloc: Global, places: &CopyPaths, copy: LinkCopy, cause: Cause) -> AfterSkip
    requires own { IsLinkOf places.now copy }
    ensures skips { SkipsAt places.now (Carry.Link copy) cause result.did result.stage }
    ensures own { IsOwn places.now result.stage }
{
    let _places = places;
    let mut copy = copy;
    let did = copy.skip(alloc, cause);
    AfterSkip {
        did,
        stage: CarryStage::Link(copy),
    }
}

/// No part stands. A source whose copy stands already stays, too.
fn pass(alloc: Global, places: &CopyPaths, stage: CarryStage, cause: Cause) -> AfterSkip
    requires partless { has_copy stage ≡ false }
    ensures skips { SkipsAt places.now stage cause result.did result.stage }
    ensures own { IsOwn places.now result.stage }
{
    let Ok(source) = places.source().copy(alloc) else {
        return AfterSkip {
            did: Did::Troubled(out_of_memory(is_barrier(&stage))),
            stage,
        };
    };
    AfterSkip {
        did: Did::Skipped(source, cause),
        stage: skipped(stage),
    }
}

fn skipped(stage: CarryStage) -> CarryStage
    ensures { result ≡ skipped_to stage }
{
    match stage {
        CarryStage::Take { folder } => passed(folder),
        CarryStage::Remove => CarryStage::PassedOver,
        CarryStage::File(copy) => CarryStage::File(copy),
        CarryStage::Link(copy) => CarryStage::Link(copy),
        CarryStage::SyncTarget => CarryStage::SyncTarget,
        CarryStage::SyncSource => CarryStage::SyncSource,
        CarryStage::Finish => CarryStage::Finish,
        CarryStage::Settle => CarryStage::Settle,
        CarryStage::PassedOver => CarryStage::PassedOver,
        CarryStage::Stays(part) => CarryStage::Stays(part),
    }
}

/// What was refused is tried again. A thing whose part stands is copied anew, once that is gone; behind the
/// copy the refused call alone is made again.
pub(crate) fn taken_anew(stage: CarryStage) -> CarryStage
    ensures { result ≡ stage_anew stage }
{
    match stage {
        CarryStage::File(copy) => file_anew(copy),
        CarryStage::Link(copy) => link_anew(copy),
        CarryStage::Take { folder } => CarryStage::Take { folder },
        CarryStage::SyncTarget => CarryStage::SyncTarget,
        CarryStage::Remove => CarryStage::Remove,
        CarryStage::SyncSource => CarryStage::SyncSource,
        CarryStage::Finish => CarryStage::Finish,
        CarryStage::Settle => CarryStage::Settle,
        CarryStage::PassedOver => CarryStage::PassedOver,
        CarryStage::Stays(part) => CarryStage::Stays(part),
    }
}

fn file_anew(copy: FileCopy) -> CarryStage
    ensures { result ≡ stage_anew (Carry.File copy) }
{
    let mut copy = copy;
    copy.retry();
    CarryStage::File(copy)
}

fn link_anew(copy: LinkCopy) -> CarryStage
    ensures { result ≡ stage_anew (Carry.Link copy) }
{
    let mut copy = copy;
    copy.retry();
    CarryStage::Link(copy)
}
