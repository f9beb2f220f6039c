//! The looks at a thing and at its target, and what the answers that stand decide.
ghost use Rattle.std.specs.Prelude.{◌≡◌, IfOk, MatchResult};
ghost use Rattle.tree_trait.specs.Change.{current};
ghost use Rattle.tree_trait.specs.Answers.{IfKnown, IsInRange};
ghost use Rattle.job_reports.specs.Reading.{Peeks};
ghost use Rattle.carry_job.specs.Taking.{ByAnswer, IsSound, IsSpecial, Judges, JudgesOnto, LooksStop};
ghost use Rattle.carry_job.specs.Taking.{Stands, Takes, TakesSingle};

use copy_file::{CopyPaths, SourceFacts, look, look_at_target};
use job_answers::{Decision, Origin, Placing, Replies, placing_of};
use job_reports::{Cause, Question, Trouble, out_of_memory, trouble_with_path};
use mc_text::Kind;
use std::alloc::Global;
use tree_trait::{Meta, Tree};

/// What comes of a thing that is to be carried.
#[derive(Debug, Drop)]
pub(crate) enum Taken {
    /// A file, of which this is said, is copied. At its target nothing stands, or what is replaced.
    File(SourceFacts),
    /// So is a link.
    Link,
    /// What stands at its target stays, and so does the thing.
    Keeps,
    /// It is to be asked whether that is replaced.
    Asks(Question),
}

/// Looks at the thing and at its target, and says what comes of it.
pub(crate) fn take_up<T: Tree>(
    alloc: Global,
    tree: &mut T,
    places: &CopyPaths,
    replies: Replies,
) -> Result<Taken, Trouble>
    ensures known { IfKnown (T.contents tree.old) (λ log. MatchResult result
        (Takes (current log) places.now replies)
        (λ trouble. LooksStop (current log) places.now trouble.cause trouble.path)) }
    ensures sound { IfOk result IsSound }
    ensures peeks { Peeks result (T.contents tree.old) (T.contents tree.new)
        (T.fault_count tree.old) (T.fault_count tree.new) }
{
    match look(alloc, tree, places.source()) {
        Ok(source) => look_on(alloc, tree, places, replies, source),
        Err(trouble) => Err(trouble),
    }
}

/// Looks at the target of a thing of which this was told.
fn look_on<T: Tree>(
    alloc: Global,
    tree: &mut T,
    places: &CopyPaths,
    replies: Replies,
    source: Meta,
) -> Result<Taken, Trouble>
    requires stands { IfKnown (T.contents tree.old) (λ log. Stands (current log) places.now.source source) }
    requires range { IsInRange source }
    ensures known { IfKnown (T.contents tree.old) (λ log. MatchResult result
        (Takes (current log) places.now replies)
        (λ trouble. LooksStop (current log) places.now trouble.cause trouble.path)) }
    ensures sound { IfOk result IsSound }
    ensures peeks { Peeks result (T.contents tree.old) (T.contents tree.new)
        (T.fault_count tree.old) (T.fault_count tree.new) }
{
    match look_at_target(alloc, tree, places.target()) {
        Ok(target) => judge(alloc, places, replies, source, target),
        Err(trouble) => Err(trouble),
    }
}

/// What was seen at the source and at the target comes to this.
fn judge(
    alloc: Global,
    places: &CopyPaths,
    replies: Replies,
    source: Meta,
    target: Option<Meta>,
) -> Result<Taken, Trouble>
    ensures { Judges places.now replies source target result }
{
    match target {
        Some(target) => onto(alloc, places, replies, source, target),
        None => single(alloc, places, source),
    }
}

/// A file or a link is carried. Nothing else is, by this.
fn single(alloc: Global, places: &CopyPaths, source: Meta) -> Result<Taken, Trouble>
    ensures { TakesSingle places.now source result }
{
    match source.kind {
        Kind::File => Ok(Taken::File(SourceFacts {
            size: source.size,
            mode: source.mode,
        })),
        Kind::Link => Ok(Taken::Link),
        Kind::Folder | Kind::Other => Err(special(alloc, places)),
    }
}

/// The source is no file and no link.
fn special(alloc: Global, places: &CopyPaths) -> Trouble
    ensures { IsSpecial places.now result }
{
    trouble_with_path(alloc, Cause::SpecialSource, places.source())
}

/// Something stands at the target.
fn onto(
    alloc: Global,
    places: &CopyPaths,
    replies: Replies,
    source: Meta,
    target: Meta,
) -> Result<Taken, Trouble>
    ensures { JudgesOnto places.now replies source target result }
{
    match placing_of(Origin::Copied(source.kind), Some(target.kind)) {
        Placing::Asks => by_answer(alloc, places, replies, source, target),
        Placing::TargetKind(kind) => Err(trouble_with_path(
            alloc,
            Cause::TargetKind(kind),
            places.target(),
        )),
        Placing::SpecialSource => Err(special(alloc, places)),
        Placing::Merges => Err(special(alloc, places)),
        // A copy that comes onto something is neither free nor replaces it unasked.
        Placing::Free => unreachable!(),
        Placing::Replaces => unreachable!(),
    }
}

/// Whether what stands at the target is replaced, by the answers that stand.
fn by_answer(
    alloc: Global,
    places: &CopyPaths,
    replies: Replies,
    source: Meta,
    target: Meta,
) -> Result<Taken, Trouble>
    ensures { ByAnswer places.now replies source target result }
{
    let Ok(question) = Question::new(alloc, places.source(), &source, places.target(), &target)
    else {
        return Err(out_of_memory(false));
    };
    match replies.decide(&question) {
        Decision::Replace => single(alloc, places, source),
        Decision::Keep => Ok(Taken::Keeps),
        Decision::Ask => Ok(Taken::Asks(question)),
    }
}
