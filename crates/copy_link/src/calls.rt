//! The reading of the link, and the call that makes its part: each refusal is named with its path.
ghost use Rattle.std.specs.Prelude.{◌≡◌, ◌∷◌, [], false, None, IfOk, MatchResult};
ghost use Rattle.tree_trait.specs.Answers.{IfKnown, IsLinkText};
ghost use Rattle.tree_trait.specs.Calls.{ReadLink, MakeLink};
ghost use Rattle.tree_trait.specs.Change.{current};
ghost use Rattle.tree_trait.specs.Refusals.{refusal_of};
ghost use Rattle.job_reports.specs.Reading.{Peeks};
ghost use Rattle.job_reports.specs.Stops.{Ran};
ghost use Rattle.copy_link.specs.LinkSteps.{ReadStops, link_text};

use job_reports::{Stop, Trouble, made_or_stopped, out_of_memory, reading_trouble, stopped_before};
use mc_text::{Path, Text};
use std::alloc::Global;
use tree_trait::Tree;

/// The text of the link.
pub(crate) fn read_text<T: Tree>(
    alloc: Global,
    tree: &mut T,
    source: &Path,
) -> Result<Text, Trouble>
    ensures known { IfKnown (T.contents tree.old) (λ log. MatchResult result
        (λ text. (refusal_of (current log) (ReadLink source.now) ≡ None)
        × (text ≡ link_text (current log) source.now))
        (λ trouble. ReadStops (current log) source.now trouble.cause trouble.path)) }
    ensures peeks { Peeks result (T.contents tree.old) (T.contents tree.new)
        (T.fault_count tree.old) (T.fault_count tree.new) }
    ensures link_text { IfOk result IsLinkText }
{
    match tree.read_link(alloc, source) {
        Ok(text) => Ok(text),
        Err(error) => Err(reading_trouble(alloc, error, source)),
    }
}

/// Makes a link with this text at the part.
pub(crate) fn make_part<T: Tree>(
    alloc: Global,
    tree: &mut T,
    part: &Path,
    text: &str,
) -> Result<u64, Stop>
    requires { IsLinkText text.now }
    ensures { Ran (MakeLink part.now text.now ∷ []) false result (T.contents tree.old) (T.contents tree.new)
        (T.fault_count tree.old) (T.fault_count tree.new) }
{
    // The path of the report comes first: after the call it is too late to find no memory.
    let Ok(named) = part.copy(alloc) else {
        return Err(stopped_before(out_of_memory(false)));
    };
    made_or_stopped(tree.make_link(alloc, part, text), named, false)
}
