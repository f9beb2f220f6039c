//! Looks at a thing that is to be copied.
ghost use Rattle.std.specs.Prelude.{◌≡◌, ◌≤◌, ◌∷◌, None, IfOk, MatchResult};
ghost use Rattle.mc_text.specs.declared.kind.Kind.TheVariants as kind;
ghost use Rattle.tree_trait.specs.Calls.{Stat};
ghost use Rattle.tree_trait.specs.Change.{current};
ghost use Rattle.tree_trait.specs.Refusals.{refusal_of};
ghost use Rattle.tree_trait.specs.Answers.{IfKnown, IsAscending, IsInRange, IsMeta};
ghost use Rattle.tree_trait.specs.FileSystem.{node};
ghost use Rattle.tree_trait.specs.Change.{found_node};
ghost use Rattle.job_reports.specs.Reading.{Peeks};
ghost use Rattle.copy_tree.specs.Judging.{IsNoFolder};
ghost use Rattle.copy_tree.specs.Taking.{AreShort, FolderStops, IsShort, IsShown};
ghost use Rattle.copy_tree.specs.Taking.{IsSound, Lists, Looks, MayTake, SourceIs};
ghost use Rattle.copy_tree.specs.Merging.{AreChildrenOr, IsChildOr, IsFreshOnto, IsOnto};
ghost use Rattle.copy_tree.specs.Merging.{IsOntoKind, NamesStop, OntoStops, joins_folders};

use crate::asking::{Asks, judge};
use crate::copy::Stage;
use crate::due::joined;
use copy_file::{SourceFacts, look, look_at_target};
use job_reports::{Cause, Pair, Question, Trouble, reading_trouble, trouble_with_path};
use mc_text::{Kind, Name, Names, Path};
use std::alloc::Global;
use tree_trait::{Children, Meta, Tree};

/// What is taken up.
#[derive(Drop)]
pub enum Taken {
    /// A file, of which this is said. At its target nothing stands, or what is replaced.
    File(SourceFacts),
    /// A link. At its target nothing stands, or what is replaced.
    Link,
    /// A folder with these names and this mode, at whose target nothing stands.
    Folder { names: Names, mode: u16 },
    /// A folder with these names, at whose target a folder stands.
    Merged { names: Names },
    /// What stands at the target stays.
    Kept,
    /// It is to be asked whether what stands at the target is replaced.
    Asked(Question),
}

/// Looks at source and target; a folder is listed. A folder onto a folder is merged by a copy that
/// stands at its beginning.
pub(crate) fn look_at_pair<T: Tree>(
    alloc: Global,
    tree: &mut T,
    pair: &Pair,
    stage: Stage,
    asks: Asks,
) -> Result<Taken, Trouble>
    ensures known { IfKnown (T.contents tree.old) (λ log.
        Looks (current log) stage asks.top asks.replies pair.now result) }
    ensures sound { IfOk result IsSound }
    ensures may { IfOk result (MayTake stage asks.top pair.now) }
    ensures peeks { Peeks result (T.contents tree.old) (T.contents tree.new) (T.fault_count tree.old)
        (T.fault_count tree.new) }
{
    match look(alloc, tree, &pair.source) {
        Ok(meta) => look_on(alloc, tree, pair, stage, asks, meta),
        Err(trouble) => Err(trouble),
    }
}

/// By the kind of the source.
fn look_on<T: Tree>(
    alloc: Global,
    tree: &mut T,
    pair: &Pair,
    stage: Stage,
    asks: Asks,
    source: Meta,
) -> Result<Taken, Trouble>
    requires known { IfKnown (T.contents tree.old) (λ log.
        (refusal_of (current log) (Stat pair.now.source) ≡ None)
        × IsMeta (current log) pair.now.source source) }
    requires range { IsInRange source }
    ensures known { IfKnown (T.contents tree.old) (λ log.
        Looks (current log) stage asks.top asks.replies pair.now result) }
    ensures sound { IfOk result IsSound }
    ensures may { IfOk result (MayTake stage asks.top pair.now) }
    ensures peeks { Peeks result (T.contents tree.old) (T.contents tree.new) (T.fault_count tree.old)
        (T.fault_count tree.new) }
{
    match source.kind {
        Kind::Folder => look_at_folder(alloc, tree, pair, stage, asks, source.mode),
        Kind::File | Kind::Link | Kind::Other => look_at_single(
            alloc, tree, pair, stage, asks, source,
        ),
    }
}

/// A thing that is no folder: what stands at its target is in its way, or is replaced, or is asked about.
fn look_at_single<T: Tree>(
    alloc: Global,
    tree: &mut T,
    pair: &Pair,
    stage: Stage,
    asks: Asks,
    source: Meta,
) -> Result<Taken, Trouble>
    requires known { IfKnown (T.contents tree.old) (λ log.
        (refusal_of (current log) (Stat pair.now.source) ≡ None)
        × IsMeta (current log) pair.now.source source) }
    requires range { IsInRange source }
    requires single { IsNoFolder source.kind }
    ensures known { IfKnown (T.contents tree.old) (λ log.
        Looks (current log) stage asks.top asks.replies pair.now result) }
    ensures sound { IfOk result IsSound }
    ensures may { IfOk result (MayTake stage asks.top pair.now) }
    ensures peeks { Peeks result (T.contents tree.old) (T.contents tree.new) (T.fault_count tree.old)
        (T.fault_count tree.new) }
{
    match look_at_target(alloc, tree, &pair.target) {
        Ok(target) => judge(alloc, pair, asks, source, target),
        Err(trouble) => Err(trouble),
    }
}

fn look_at_folder<T: Tree>(
    alloc: Global,
    tree: &mut T,
    pair: &Pair,
    stage: Stage,
    asks: Asks,
    mode: u16,
) -> Result<Taken, Trouble>
    requires known { IfKnown (T.contents tree.old) (λ log. SourceIs (current log) pair.now kind.Folder
        × (mode ≡ (node (current log) (found_node (current log) pair.now.source)).mode)) }
    requires mode { mode ≤ 0o7777 }
    ensures known { IfKnown (T.contents tree.old) (λ log.
        Looks (current log) stage asks.top asks.replies pair.now result) }
    ensures sound { IfOk result IsSound }
    ensures may { IfOk result (MayTake stage asks.top pair.now) }
    ensures peeks { Peeks result (T.contents tree.old) (T.contents tree.new) (T.fault_count tree.old)
        (T.fault_count tree.new) }
{
    match folder_target(alloc, tree, pair, stage) {
        Ok(onto) => list_folder(alloc, tree, pair, stage, asks, mode, onto),
        Err(trouble) => Err(trouble),
    }
}

/// What stands at the target of a folder.
#[derive(Clone, Copy, Drop)]
enum Onto {
    Nothing,
    Folder,
}

/// Nothing stands at the target of a folder, or a folder with which it is merged, or the trouble of it.
fn folder_target<T: Tree>(
    alloc: Global,
    tree: &mut T,
    pair: &Pair,
    stage: Stage,
) -> Result<Onto, Trouble>
    ensures known { IfKnown (T.contents tree.old) (λ log.
        MatchResult result (IsOnto (current log) pair.now) (OntoStops (current log) stage pair.now)) }
    ensures fresh { IfOk result (IsFreshOnto stage) }
    ensures peeks { Peeks result (T.contents tree.old) (T.contents tree.new) (T.fault_count tree.old)
        (T.fault_count tree.new) }
{
    match look_at_target(alloc, tree, &pair.target) {
        Ok(None) => Ok(Onto::Nothing),
        Ok(Some(meta)) => onto_kind(alloc, pair, stage, meta.kind),
        Err(trouble) => Err(trouble),
    }
}

/// A folder is merged with one, where the copy has changed nothing yet; anything else is in its way.
fn onto_kind(alloc: Global, pair: &Pair, stage: Stage, kind: Kind) -> Result<Onto, Trouble>
    ensures { IsOntoKind stage pair.now kind result }
{
    if merges(stage, kind) {
        return Ok(Onto::Folder);
    }
    Err(trouble_with_path(alloc, Cause::TargetKind(kind), &pair.target))
}

/// Whether a folder is merged with what is of this kind.
fn merges(stage: Stage, kind: Kind) -> bool
    ensures { result ≡ joins_folders stage kind }
{
    match stage {
        Stage::Begin => match kind {
            Kind::Folder => true,
            Kind::File => false,
            Kind::Link => false,
            Kind::Other => false,
        },
        Stage::Going => false,
    }
}

/// The folder is listed.
fn list_folder<T: Tree>(
    alloc: Global,
    tree: &mut T,
    pair: &Pair,
    stage: Stage,
    asks: Asks,
    mode: u16,
    onto: Onto,
) -> Result<Taken, Trouble>
    requires known { IfKnown (T.contents tree.old) (λ log. SourceIs (current log) pair.now kind.Folder
        × (mode ≡ (node (current log) (found_node (current log) pair.now.source)).mode)) }
    requires mode { mode ≤ 0o7777 }
    requires onto { IfKnown (T.contents tree.old) (λ log. IsOnto (current log) pair.now onto) }
    requires fresh { IsFreshOnto stage onto }
    ensures known { IfKnown (T.contents tree.old) (λ log.
        Looks (current log) stage asks.top asks.replies pair.now result) }
    ensures sound { IfOk result IsSound }
    ensures may { IfOk result (MayTake stage asks.top pair.now) }
    ensures peeks { Peeks result (T.contents tree.old) (T.contents tree.new) (T.fault_count tree.old)
        (T.fault_count tree.new) }
{
    match onto {
        Onto::Nothing => match names_in(alloc, tree, &pair.source) {
            Ok(names) => Ok(Taken::Folder { names, mode }),
            Err(trouble) => Err(trouble),
        },
        Onto::Folder => match names_to_merge(alloc, tree, pair) {
            Ok(names) => Ok(Taken::Merged { names }),
            Err(trouble) => Err(trouble),
        },
    }
}

/// The names in a folder that is to be merged with the one at its target: all can be shown, and the paths
/// of what has them can be told, and so can those of their targets.
pub fn names_to_merge<T: Tree>(alloc: Global, tree: &mut T, pair: &Pair) -> Result<Names, Trouble>
    ensures known { IfKnown (T.contents tree.old) (λ log.
        MatchResult result (Lists (current log) pair.now.source) (NamesStop (current log) pair.now)) }
    ensures short { IfOk result (AreShort pair.now) }
    ensures in_order { IfOk result IsAscending }
    ensures peeks { Peeks result (T.contents tree.old) (T.contents tree.new) (T.fault_count tree.old)
        (T.fault_count tree.new) }
{
    let names = match names_in(alloc, tree, &pair.source) {
        Ok(names) => names,
        Err(trouble) => return Err(trouble),
    };
    match children(alloc, pair, names.as_slice()) {
        Ok(()) => Ok(names),
        Err(trouble) => Err(trouble),
    }
}

/// All that has one of these names in a folder that is merged can be told, and so can its target.
fn children(alloc: Global, pair: &Pair, names: &[Name]) -> Result<(), Trouble>
    ensures { AreChildrenOr pair.now names.now result }
{
    let mut rest = names;
    while let Some((name, more)) = rest.split_first() {
        if let Err(trouble) = child(alloc, pair, name) {
            return Err(trouble);
        }
        rest = more;
    }
    Ok(())
}

/// The paths of what has this name in a folder that is merged, and of its target, can be told.
fn child(alloc: Global, pair: &Pair, name: &Name) -> Result<(), Trouble>
    ensures { IsChildOr pair.now name.now result }
{
    match joined(alloc, &pair.source, name, &pair.source) {
        Ok(source) => target_of_child(alloc, pair, name, &source),
        Err(trouble) => Err(trouble),
    }
}

/// The same of the target, where the path of the thing itself can be told.
fn target_of_child(alloc: Global, pair: &Pair, name: &Name, source: &Path) -> Result<(), Trouble>
    requires source { source.now ≡ name.now ∷ pair.now.source }
    requires short { IsShort source.now }
    ensures { IsChildOr pair.now name.now result }
{
    match joined(alloc, &pair.target, name, source) {
        Ok(_) => Ok(()),
        Err(trouble) => Err(trouble),
    }
}

/// The names in a folder, all of which can be shown.
fn names_in<T: Tree>(alloc: Global, tree: &mut T, folder: &Path) -> Result<Names, Trouble>
    ensures known { IfKnown (T.contents tree.old) (λ log.
        MatchResult result (Lists (current log) folder.now) (FolderStops (current log) folder.now)) }
    ensures in_order { IfOk result IsAscending }
    ensures peeks { Peeks result (T.contents tree.old) (T.contents tree.new) (T.fault_count tree.old)
        (T.fault_count tree.new) }
{
    match tree.list(alloc, folder) {
        Ok(children) => shown(alloc, folder, children),
        Err(error) => Err(reading_trouble(alloc, error, folder)),
    }
}

/// The names of a listing, unless there are some that can't be shown.
fn shown(alloc: Global, folder: &Path, children: Children) -> Result<Names, Trouble>
    ensures { IsShown folder.now children result }
{
    if children.unnamed != 0 {
        return Err(trouble_with_path(alloc, Cause::Unnamed(children.unnamed), folder));
    }
    Ok(children.names)
}
