//! The beginning of the copy of a thing: its looks, and its part.
ghost use Rattle.std.specs.Prelude.{◌≡◌, IfOk, true};
ghost use Rattle.copy_file.specs.Copying.{begun_copy};
ghost use Rattle.copy_file.specs.Looking.{HasRange};
ghost use Rattle.copy_link.specs.declared.stage.Stage.TheVariants as LinkStage;
ghost use Rattle.carry_job.specs.CarrySteps.{Begins, FileBegins, IsLinkBegun, KeepsTarget, LinkPartMade};
ghost use Rattle.carry_job.specs.CarrySteps.{Works, after_step, link_begun, out_of_memory_in};
ghost use Rattle.carry_job.specs.Carryings.{IsGoing, IsHeld, after_beginning as file_beginning};
ghost use Rattle.carry_job.specs.Carryings.{after_link_beginning as link_beginning, passed as passed_to};
ghost use Rattle.carry_job.specs.Taking.{IsSound};

use crate::stage::{AfterStep, CarryStage};
use crate::taking::{Taken, take_up};
use copy_file::{CopyPaths, FileCopy, FolderState, SourceFacts, choose_part};
use copy_link::LinkCopy;
use job_answers::Replies;
use job_reports::{Did, PartTest, out_of_memory};
use mc_text::{NoMemory, Path};
use std::alloc::Global;
use tree_trait::Tree;

/// Looks at the thing, and begins its copy where nothing stops that.
pub(crate) fn take<T: Tree, P: PartTest>(
    alloc: Global,
    tree: &mut T,
    parts: &P,
    places: &CopyPaths,
    folder: FolderState,
    replies: Replies,
) -> AfterStep
    requires held { IsHeld places.now }
    ensures works { Works (λ path. P.is_free parts.now path ≡ true) replies places.now
        (CarryStage.Take folder) result
        (T.contents tree.old) (T.contents tree.new) (T.fault_count tree.old) (T.fault_count tree.new) }
    ensures going { IsGoing places.now result.stage }
{
    match take_up(alloc, tree, places, replies) {
        Ok(taken) => begin(alloc, tree, parts, places, folder, taken),
        Err(trouble) => uncalled(Did::Troubled(trouble), CarryStage::Take { folder }),
    }
}

/// A step that made no call.
pub(crate) fn uncalled(did: Did, stage: CarryStage) -> AfterStep
    ensures { result ≡ after_step did 0 stage }
{
    AfterStep {
        did,
        calls: 0,
        stage,
    }
}

/// There is no memory, and nothing was done.
fn without_memory(folder: FolderState) -> AfterStep
    ensures { result ≡ out_of_memory_in (CarryStage.Take folder) }
{
    uncalled(
        Did::Troubled(out_of_memory(false)),
        CarryStage::Take { folder },
    )
}

/// What was taken up is begun.
fn begin<T: Tree, P: PartTest>(
    alloc: Global,
    tree: &mut T,
    parts: &P,
    places: &CopyPaths,
    folder: FolderState,
    taken: Taken,
) -> AfterStep
    requires held { IsHeld places.now }
    requires sound { IsSound taken }
    ensures begins { Begins (λ path. P.is_free parts.now path ≡ true) places.now folder taken result
        (T.contents tree.old) (T.contents tree.new) (T.fault_count tree.old) (T.fault_count tree.new) }
    ensures going { IsGoing places.now result.stage }
{
    match taken {
        Taken::File(facts) => begin_file(alloc, tree, parts, places, folder, facts),
        Taken::Link => begin_link(alloc, tree, parts, places, folder),
        Taken::Keeps => keep(alloc, places, folder),
        Taken::Asks(question) => uncalled(Did::Asked(question), CarryStage::Take { folder }),
    }
}

/// The part of a file is made.
fn begin_file<T: Tree, P: PartTest>(
    alloc: Global,
    tree: &mut T,
    parts: &P,
    places: &CopyPaths,
    folder: FolderState,
    facts: SourceFacts,
) -> AfterStep
    requires held { IsHeld places.now }
    requires range { HasRange facts }
    ensures begins { Begins (λ path. P.is_free parts.now path ≡ true) places.now folder (Taken.File facts)
        result (T.contents tree.old) (T.contents tree.new) (T.fault_count tree.old) (T.fault_count tree.new) }
    ensures going { IsGoing places.now result.stage }
{
    match file_copy(alloc, places) {
        Ok(copy) => make_file_part(alloc, tree, parts, places, folder, facts, copy),
        Err(NoMemory) => without_memory(folder),
    }
}

fn make_file_part<T: Tree, P: PartTest>(
    alloc: Global,
    tree: &mut T,
    parts: &P,
    places: &CopyPaths,
    folder: FolderState,
    facts: SourceFacts,
    copy: FileCopy,
) -> AfterStep
    requires range { HasRange facts }
    requires begun { copy ≡ begun_copy places.now.job places.now.source places.now.target }
    ensures begins { FileBegins (λ path. P.is_free parts.now path ≡ true) facts places.now folder result
        (T.contents tree.old) (T.contents tree.new) (T.fault_count tree.old) (T.fault_count tree.new) }
    ensures going { IsGoing places.now result.stage }
{
    let _places = places;
    let mut copy = copy;
    let stepped = copy.begin_with(alloc, tree, parts, facts);
    let stage = after_beginning(&stepped.did, copy, folder);
    AfterStep {
        did: stepped.did,
        calls: stepped.calls,
        stage,
    }
}

fn after_beginning(did: &Did, copy: FileCopy, folder: FolderState) -> CarryStage
    ensures { result ≡ file_beginning did.now copy folder }
{
    match did {
        Did::Began(_) => CarryStage::File(copy),
        _ => CarryStage::Take { folder },
    }
}

/// The copy of the file to its target.
fn file_copy(alloc: Global, places: &CopyPaths) -> Result<FileCopy, NoMemory>
    requires held { IsHeld places.now }
    ensures { IfOk result (λ copy.
        copy ≡ begun_copy places.now.job places.now.source places.now.target) }
{
    let source = places.source().copy(alloc)?;
    let source_folder = places.source_folder().copy(alloc)?;
    let target = places.target().copy(alloc)?;
    let folder = places.folder().copy(alloc)?;
    Ok(FileCopy::new(places.job(), source, source_folder, target, folder))
}

/// The part of a link gets the first name that is free, and is made.
fn begin_link<T: Tree, P: PartTest>(
    alloc: Global,
    tree: &mut T,
    parts: &P,
    places: &CopyPaths,
    folder: FolderState,
) -> AfterStep
    requires held { IsHeld places.now }
    ensures begins { Begins (λ path. P.is_free parts.now path ≡ true) places.now folder Taken.Link
        result (T.contents tree.old) (T.contents tree.new) (T.fault_count tree.old) (T.fault_count tree.new) }
    ensures going { IsGoing places.now result.stage }
{
    match choose_part(alloc, tree, parts, places) {
        Ok(part) => make_link(alloc, tree, places, folder, part),
        Err(trouble) => uncalled(Did::Troubled(trouble), CarryStage::Take { folder }),
    }
}

fn make_link<T: Tree>(
    alloc: Global,
    tree: &mut T,
    places: &CopyPaths,
    folder: FolderState,
    part: Path,
) -> AfterStep
    requires held { IsHeld places.now }
    ensures begins { IsLinkBegun places.now part folder result
        (T.contents tree.old) (T.contents tree.new) (T.fault_count tree.old) (T.fault_count tree.new) }
    ensures going { IsGoing places.now result.stage }
{
    match link_copy(alloc, places, part) {
        Ok(copy) => make_link_part(alloc, tree, places, folder, copy),
        Err(NoMemory) => without_memory(folder),
    }
}

fn make_link_part<T: Tree>(
    alloc: Global,
    tree: &mut T,
    places: &CopyPaths,
    folder: FolderState,
    copy: LinkCopy,
) -> AfterStep
    requires makes { copy.stage ≡ LinkStage.Make }
    requires source { copy.source ≡ places.now.source }
    requires target { copy.target ≡ places.now.target }
    ensures makes { LinkPartMade copy folder result
        (T.contents tree.old) (T.contents tree.new) (T.fault_count tree.old) (T.fault_count tree.new) }
    ensures going { IsGoing places.now result.stage }
{
    let _places = places;
    let mut copy = copy;
    let stepped = copy.step(alloc, tree);
    let stage = after_link_beginning(&stepped.did, copy, folder);
    AfterStep {
        did: stepped.did,
        calls: stepped.calls,
        stage,
    }
}

fn after_link_beginning(did: &Did, copy: LinkCopy, folder: FolderState) -> CarryStage
    ensures { result ≡ link_beginning did.now copy folder }
{
    match did {
        Did::Began(_) => CarryStage::Link(copy),
        _ => CarryStage::Take { folder },
    }
}

/// The copy of the link to its target, by way of this part.
fn link_copy(alloc: Global, places: &CopyPaths, part: Path) -> Result<LinkCopy, NoMemory>
    requires held { IsHeld places.now }
    ensures { IfOk result (λ copy. copy ≡ link_begun places.now part) }
{
    let source = places.source().copy(alloc)?;
    let target = places.target().copy(alloc)?;
    let folder = places.folder().copy(alloc)?;
    Ok(LinkCopy::new(source, target, folder, part))
}

/// What stands at the target stays, and so does the thing.
fn keep(alloc: Global, places: &CopyPaths, folder: FolderState) -> AfterStep
    ensures { KeepsTarget places.now folder result }
{
    match places.target().copy(alloc) {
        Ok(target) => uncalled(Did::Kept(target), passed(folder)),
        Err(NoMemory) => without_memory(folder),
    }
}

/// The thing is not carried.
pub(crate) fn passed(folder: FolderState) -> CarryStage
    ensures { result ≡ passed_to folder }
{
    match folder {
        FolderState::Dirty => CarryStage::Settle,
        FolderState::Synced => CarryStage::PassedOver,
    }
}
