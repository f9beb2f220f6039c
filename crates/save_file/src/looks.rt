//! The looks before a part is made: at the target, which may be missing, and at the folder that holds it.
ghost use Rattle.std.specs.Prelude.{◌≡◌, ◌≤◌, IfOk, MatchResult};
ghost use Rattle.tree_trait.specs.Change.{current};
ghost use Rattle.tree_trait.specs.Answers.{IfKnown};
ghost use Rattle.job_reports.specs.Paths.{folder_of};
ghost use Rattle.job_reports.specs.Reading.{Peeks};
ghost use Rattle.save_file.specs.Looking.{Judges, LookStops, TakesMode};

use copy_file::{look, look_at_target};
use job_reports::{Cause, Trouble, trouble_with_path};
use mc_text::{Kind, Path};
use std::alloc::Global;
use tree_trait::{Meta, Tree};

/// The mode of a file where none was before.
const NEW_FILE_MODE: u16 = 0o644;

/// The mode that the file is to have.
pub(crate) fn mode_to_take<T: Tree>(
    alloc: Global,
    tree: &mut T,
    target: &Path,
    folder: &Path,
) -> Result<u16, Trouble>
    requires { folder.now ≡ folder_of target.now }
    ensures known { IfKnown (T.contents tree.old) (λ log. MatchResult result
        (λ mode. TakesMode (current log) target.now mode)
        (λ trouble. LookStops (current log) target.now trouble.cause trouble.path)) }
    ensures peeks { Peeks result (T.contents tree.old) (T.contents tree.new)
        (T.fault_count tree.old) (T.fault_count tree.new) }
    ensures in_range { IfOk result (λ mode. mode ≤ 0o7777) }
{
    let found = match look_at_target(alloc, tree, target) {
        Ok(found) => found,
        Err(trouble) => return Err(trouble),
    };
    if let Err(trouble) = look(alloc, tree, folder) {
        return Err(trouble);
    }
    judge(alloc, target, found)
}

/// What the look at the target comes to: a file keeps its mode, a link gives way to a new
/// file, and nothing else does.
fn judge(alloc: Global, target: &Path, found: Option<Meta>) -> Result<u16, Trouble>
    ensures { Judges target.now found result }
{
    match found {
        None => Ok(NEW_FILE_MODE),
        Some(meta) => match meta.kind {
            Kind::File => Ok(meta.mode),
            Kind::Link => Ok(NEW_FILE_MODE),
            Kind::Folder => Err(trouble_with_path(alloc, Cause::TargetKind(Kind::Folder), target)),
            Kind::Other => Err(trouble_with_path(alloc, Cause::TargetKind(Kind::Other), target)),
        },
    }
}
