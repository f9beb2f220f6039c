//! What comes of a thing that is to be moved: the looks at it and at its target, and what the
//! answers that stand decide.
ghost use Rattle.std.specs.Prelude.{◌≡◌, IfOk, MatchResult, Some};
ghost use Rattle.tree_trait.specs.Change.{current};
ghost use Rattle.tree_trait.specs.Answers.{IfKnown, IsAscending};
ghost use Rattle.job_reports.specs.Reading.{Peeks};
ghost use Rattle.job_answers.specs.declared.placing.Origin.TheVariants.{Moved};
ghost use Rattle.job_answers.specs.declared.placing.Placing.TheVariants.{Merges};
ghost use Rattle.job_answers.specs.Questions.{placing_at};
ghost use Rattle.copy_tree.specs.Taking.{AreShort};
ghost use Rattle.move_job.specs.Takings.{Decides, IsMerged, IsTold, LooksStop, Stands, Takes};

use copy_file::{look, look_at_target};
use copy_tree::names_to_merge;
use job_answers::{Decision, Origin, Placing, Replies, placing_of};
use job_reports::{Cause, Pair, Question, Trouble, out_of_memory, trouble_with_path};
use mc_text::Names;
use std::alloc::Global;
use tree_trait::{Meta, Tree, TreeError};

/// What comes of a thing that is to be moved.
#[derive(Debug, Drop)]
pub(crate) enum Taking {
    /// It is renamed, a folder with all that lies in it: nothing stands at its target, or it is no folder,
    /// and what stands there is replaced.
    Moves,
    /// What stands at its target stays, and so does the thing.
    Keeps,
    /// It is to be asked whether that is replaced.
    Asks(Question),
    /// A folder comes onto a folder: what lies in it, by these names, is moved, each
    /// thing by a move of its own.
    Merges(Names),
}

/// Looks at the thing and at its target, and says what comes of it.
pub(crate) fn take_up<T: Tree>(
    alloc: Global,
    tree: &mut T,
    pair: &Pair,
    replies: Replies,
) -> Result<Taking, Trouble>
    ensures known { IfKnown (T.contents tree.old) (λ log. MatchResult result
        (λ taking. Takes (current log) pair.now replies taking)
        (λ trouble. LooksStop (current log) pair.now trouble.cause trouble.path)) }
    ensures told { IfOk result (IsTold pair.now) }
    ensures peeks { Peeks result (T.contents tree.old) (T.contents tree.new)
        (T.fault_count tree.old) (T.fault_count tree.new) }
{
    let source = match look(alloc, tree, &pair.source) {
        Ok(meta) => meta,
        Err(trouble) => return Err(trouble),
    };
    match look_at_target(alloc, tree, &pair.target) {
        Ok(None) => Ok(Taking::Moves),
        Ok(Some(target)) => onto(alloc, tree, pair, replies, source, target),
        Err(trouble) => Err(trouble),
    }
}

/// Something stands at the target.
fn onto<T: Tree>(
    alloc: Global,
    tree: &mut T,
    pair: &Pair,
    replies: Replies,
    source: Meta,
    target: Meta,
) -> Result<Taking, Trouble>
    requires stand { IfKnown (T.contents tree.old) (λ log. Stands (current log) pair.now.source source
        × Stands (current log) pair.now.target target) }
    ensures known { IfKnown (T.contents tree.old) (λ log. MatchResult result
        (λ taking. Takes (current log) pair.now replies taking)
        (λ trouble. LooksStop (current log) pair.now trouble.cause trouble.path)) }
    ensures told { IfOk result (IsTold pair.now) }
    ensures peeks { Peeks result (T.contents tree.old) (T.contents tree.new)
        (T.fault_count tree.old) (T.fault_count tree.new) }
{
    match placing_of(Origin::Moved(source.kind), Some(target.kind)) {
        Placing::Asks => by_answer(alloc, pair, replies, source, target),
        Placing::Merges => match names_to_move(alloc, tree, pair, source, target) {
            Ok(names) => Ok(Taking::Merges(names)),
            Err(trouble) => Err(trouble),
        },
        Placing::TargetKind(kind) => Err(trouble_with_path(
            alloc,
            Cause::TargetKind(kind),
            &pair.target,
        )),
        // What comes onto something is asked about or merged, or that is in its way.
        _ => unreachable!(),
    }
}

/// The names in a folder that comes onto a folder, by which what lies in it is moved. The two lie on one
/// mount, since nothing can be renamed to another.
fn names_to_move<T: Tree>(
    alloc: Global,
    tree: &mut T,
    pair: &Pair,
    source: Meta,
    target: Meta,
) -> Result<Names, Trouble>
    requires stand { IfKnown (T.contents tree.old) (λ log. Stands (current log) pair.now.source source
        × Stands (current log) pair.now.target target) }
    requires meets { placing_at (Moved source.kind) (Some target.kind) ≡ Merges }
    ensures known { IfKnown (T.contents tree.old) (λ log. MatchResult result (IsMerged (current log) pair.now)
        (λ trouble. LooksStop (current log) pair.now trouble.cause trouble.path)) }
    ensures told { IfOk result (λ names. AreShort pair.now names × IsAscending names) }
    ensures peeks { Peeks result (T.contents tree.old) (T.contents tree.new)
        (T.fault_count tree.old) (T.fault_count tree.new) }
{
    if source.mount != target.mount {
        return Err(trouble_with_path(alloc, Cause::Tree(TreeError::CrossMount), &pair.target));
    }
    names_to_merge(alloc, tree, pair)
}

/// Whether what stands at the target is replaced, by the answers that stand.
fn by_answer(
    alloc: Global,
    pair: &Pair,
    replies: Replies,
    source: Meta,
    target: Meta,
) -> Result<Taking, Trouble>
    ensures { Decides pair.now replies source target result }
{
    let Ok(question) = Question::new(alloc, &pair.source, &source, &pair.target, &target) else {
        return Err(out_of_memory(false));
    };
    match replies.decide(&question) {
        Decision::Replace => Ok(Taking::Moves),
        Decision::Keep => Ok(Taking::Keeps),
        Decision::Ask => Ok(Taking::Asks(question)),
    }
}
