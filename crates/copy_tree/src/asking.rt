//! What comes of a thing that is no folder, by what stands at its target: only what is copied itself may
//! replace a file or a link there, and it asks before.
ghost use Rattle.std.specs.Prelude.{◌≡◌};
ghost use Rattle.copy_tree.specs.Replaceable.{IsReplaceable};
ghost use Rattle.job_reports.specs.Stops.{IsTroubleWithPath};
ghost use Rattle.copy_tree.specs.Judging.{ByAnswer, Judges, JudgesOnto, TakesSingle};

use crate::looking::Taken;
use copy_file::SourceFacts;
use job_answers::{Decision, Replies};
use job_reports::{Cause, Pair, Question, Trouble, out_of_memory, trouble_with_path};
use mc_text::Kind;
use std::alloc::Global;
use tree_trait::Meta;

/// Which answers stand, and whether what is looked at is copied itself, or lies in a folder that is.
#[derive(Clone, Copy, Drop)]
pub(crate) struct Asks {
    pub(crate) top: bool,
    pub(crate) replies: Replies,
}

/// What was seen at the source and at the target comes to this.
pub(crate) fn judge(
    alloc: Global,
    pair: &Pair,
    asks: Asks,
    source: Meta,
    target: Option<Meta>,
) -> Result<Taken, Trouble>
    ensures { Judges asks.top asks.replies pair.now source target result }
{
    match target {
        Some(target) => onto(alloc, pair, asks, source, target),
        None => single(alloc, pair, source),
    }
}

/// A file or a link is taken up; a special file can't be copied.
fn single(alloc: Global, pair: &Pair, source: Meta) -> Result<Taken, Trouble>
    ensures { TakesSingle pair.now source result }
{
    match source.kind {
        Kind::File => Ok(Taken::File(SourceFacts {
            size: source.size,
            mode: source.mode,
        })),
        Kind::Link => Ok(Taken::Link),
        Kind::Folder | Kind::Other => {
            Err(trouble_with_path(alloc, Cause::SpecialSource, &pair.source))
        }
    }
}

/// Something stands at the target.
fn onto(
    alloc: Global,
    pair: &Pair,
    asks: Asks,
    source: Meta,
    target: Meta,
) -> Result<Taken, Trouble>
    ensures { JudgesOnto asks.top asks.replies pair.now source target result }
{
    match target.kind {
        Kind::File | Kind::Link => onto_single(alloc, pair, asks, source, target),
        Kind::Folder | Kind::Other => Err(in_the_way(alloc, pair, target)),
    }
}

/// A file or a link stands at the target.
fn onto_single(
    alloc: Global,
    pair: &Pair,
    asks: Asks,
    source: Meta,
    target: Meta,
) -> Result<Taken, Trouble>
    requires single { IsReplaceable target.kind }
    ensures { JudgesOnto asks.top asks.replies pair.now source target result }
{
    match source.kind {
        Kind::File | Kind::Link if asks.top => by_answer(alloc, pair, asks.replies, source, target),
        Kind::File | Kind::Link => Err(in_the_way(alloc, pair, target)),
        Kind::Folder | Kind::Other => {
            Err(trouble_with_path(alloc, Cause::SpecialSource, &pair.source))
        }
    }
}

/// What stands at the target is a trouble.
fn in_the_way(alloc: Global, pair: &Pair, target: Meta) -> Trouble
    ensures { IsTroubleWithPath (Cause.TargetKind target.kind) pair.now.target result }
{
    trouble_with_path(alloc, Cause::TargetKind(target.kind), &pair.target)
}

/// Whether what stands at the target is replaced, by the answers that stand.
fn by_answer(
    alloc: Global,
    pair: &Pair,
    replies: Replies,
    source: Meta,
    target: Meta,
) -> Result<Taken, Trouble>
    ensures { ByAnswer replies pair.now source target result }
{
    let Ok(question) = Question::new(alloc, &pair.source, &source, &pair.target, &target) else {
        return Err(out_of_memory(false));
    };
    match replies.decide(&question) {
        Decision::Replace => single(alloc, pair, source),
        Decision::Keep => Ok(Taken::Kept),
        Decision::Ask => Ok(Taken::Asked(question)),
    }
}
