//! The looks before a part is made: a file stands at the source, and nothing at the target.
ghost use Rattle.std.specs.Prelude.{◌≡◌, None, IfOk, IfSome, MatchResult};
ghost use Rattle.tree_trait.specs.Calls.{Stat};
ghost use Rattle.tree_trait.specs.Change.{current};
ghost use Rattle.tree_trait.specs.Refusals.{refusal_of};
ghost use Rattle.tree_trait.specs.Answers.{IfKnown, IsInRange, IsMeta};
ghost use Rattle.copy_file.specs.Looking.{AreFactsOf, AreSeen, FactsSeen, HasRange};
ghost use Rattle.copy_file.specs.Looking.{IsReady, IsThere, Judges, LookRefused, LookStops};
ghost use Rattle.job_reports.specs.Reading.{Peeks, StatStops, TargetStops};
ghost use Rattle.job_reports.specs.Stops.{IsTroubleWithPath};

use crate::item::CopyPaths;
use crate::stage::SourceFacts;
use job_reports::{Cause, Trouble, missing_or_trouble, reading_trouble, trouble_with_path};
use mc_text::{Kind, Path};
use std::alloc::Global;
use tree_trait::{Meta, Tree};

/// What stands at the source, and at the target if anything does.
#[derive(Clone, Copy, Debug)]
pub(crate) struct Seen {
    pub(crate) source: Meta,
    pub(crate) target: Option<Meta>,
}

/// A file is at the source, and nothing at the target. What a refused look says goes before what stands at
/// the target, and that before what the source is.
pub(crate) fn looks<T: Tree>(
    alloc: Global,
    tree: &mut T,
    item: &CopyPaths,
) -> Result<SourceFacts, Trouble>
    ensures known { IfKnown (T.contents tree.old) (λ log. MatchResult result
        (λ facts. IsReady (current log) item.now × AreFactsOf (current log) item.now.source facts)
        (λ trouble. LookStops (current log) item.now trouble.cause trouble.path)) }
    ensures peeks { Peeks result (T.contents tree.old) (T.contents tree.new)
        (T.fault_count tree.old) (T.fault_count tree.new) }
    ensures in_range { IfOk result HasRange }
{
    match look_at_places(alloc, tree, item) {
        Ok(seen) => judge(alloc, item, seen),
        Err(trouble) => Err(trouble),
    }
}

/// Looks at the source, the target and the folders that hold them, in this order.
pub(crate) fn look_at_places<T: Tree>(
    alloc: Global,
    tree: &mut T,
    item: &CopyPaths,
) -> Result<Seen, Trouble>
    ensures known { IfKnown (T.contents tree.old) (λ log. MatchResult result
        (λ seen. AreSeen (current log) item.now seen)
        (λ trouble. LookRefused (current log) item.now trouble.cause trouble.path)) }
    ensures peeks { Peeks result (T.contents tree.old) (T.contents tree.new)
        (T.fault_count tree.old) (T.fault_count tree.new) }
    ensures in_range { IfOk result (λ seen. IsInRange seen.source) }
{
    let source = match look(alloc, tree, item.source()) {
        Ok(meta) => meta,
        Err(trouble) => return Err(trouble),
    };
    let target = match look_at_target(alloc, tree, item.target()) {
        Ok(target) => target,
        Err(trouble) => return Err(trouble),
    };
    if let Err(trouble) = look(alloc, tree, item.source_folder()) {
        return Err(trouble);
    }
    if let Err(trouble) = look(alloc, tree, item.folder()) {
        return Err(trouble);
    }
    Ok(Seen { source, target })
}

/// What stands at a path.
pub fn look<T: Tree>(alloc: Global, tree: &mut T, path: &Path) -> Result<Meta, Trouble>
    ensures known { IfKnown (T.contents tree.old) (λ log. MatchResult result
        (λ meta. (refusal_of (current log) (Stat path.now) ≡ None) × IsMeta (current log) path.now meta)
        (λ trouble. StatStops (current log) path.now trouble.cause trouble.path)) }
    ensures peeks { Peeks result (T.contents tree.old) (T.contents tree.new)
        (T.fault_count tree.old) (T.fault_count tree.new) }
    ensures in_range { IfOk result IsInRange }
{
    match tree.stat(alloc, path) {
        Ok(meta) => Ok(meta),
        Err(error) => Err(reading_trouble(alloc, error, path)),
    }
}

/// What stands at the target, if anything does.
pub fn look_at_target<T: Tree>(
    alloc: Global,
    tree: &mut T,
    path: &Path,
) -> Result<Option<Meta>, Trouble>
    ensures known { IfKnown (T.contents tree.old) (λ log. MatchResult result
        (λ found. IsThere (current log) path.now found)
        (λ trouble. TargetStops (current log) path.now trouble.cause trouble.path)) }
    ensures peeks { Peeks result (T.contents tree.old) (T.contents tree.new)
        (T.fault_count tree.old) (T.fault_count tree.new) }
    ensures in_range { IfOk result (λ found. IfSome found IsInRange) }
{
    match tree.stat(alloc, path) {
        Ok(meta) => Ok(Some(meta)),
        Err(error) => match missing_or_trouble(alloc, error, path) {
            Ok(()) => Ok(None),
            Err(trouble) => Err(trouble),
        },
    }
}

/// What the looks come to, where nothing may stand at the target.
fn judge(alloc: Global, item: &CopyPaths, seen: Seen) -> Result<SourceFacts, Trouble>
    ensures { Judges item.now seen.source seen.target result }
{
    match seen.target {
        Some(target) => Err(in_the_way(alloc, item, target)),
        None => facts_of(alloc, item, seen.source),
    }
}

/// What stands at the target is a trouble.
pub(crate) fn in_the_way(alloc: Global, item: &CopyPaths, target: Meta) -> Trouble
    ensures { IsTroubleWithPath (Cause.TargetKind target.kind) item.now.target result }
{
    trouble_with_path(alloc, Cause::TargetKind(target.kind), item.target())
}

/// What is said of a source, which is to be a file.
pub(crate) fn facts_of(
    alloc: Global,
    item: &CopyPaths,
    source: Meta,
) -> Result<SourceFacts, Trouble>
    ensures { FactsSeen item.now source result }
{
    match source.kind {
        Kind::File => Ok(SourceFacts {
            size: source.size,
            mode: source.mode,
        }),
        _ => Err(trouble_with_path(alloc, Cause::SpecialSource, item.source())),
    }
}
