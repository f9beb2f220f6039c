//! What is made anew, and the call of the tree that makes it.
ghost use Rattle.std.specs.Prelude.{◌≡◌, None};
ghost use Rattle.tree_trait.specs.Answered.{with_answer};
ghost use Rattle.tree_trait.specs.declared.calls.TreeError.{TreeError};
ghost use Rattle.tree_trait.specs.Answers.{HasCause, IfKnown, Performs};
ghost use Rattle.make_job.specs.NewThings.{IsMakable, making_call, making_kind};

use job_reports::JobKind;
use mc_text::{Path, Text};
use std::alloc::Global;
use std::convert::AsStr;
use tree_trait::{Tree, TreeError};

/// A new folder has this mode.
const FOLDER_MODE: u16 = 0o755;

/// What is made anew.
#[derive(Debug, Drop)]
pub enum NewThing {
    /// An empty folder.
    Folder,
    /// A link with this text.
    Link(Text),
}

impl NewThing {
    /// Makes it at a path, by one call.
    pub(crate) fn make_at<T: Tree>(
        &self,
        alloc: Global,
        tree: &mut T,
        path: &Path,
    ) -> Result<(), TreeError>
        requires makable { IsMakable self.now }
        ensures answer { IfKnown (T.contents tree.old) (λ log.
            Performs log (making_call self.now path.now) result (T.contents tree.new)) }
        ensures stays_unknown { T.contents tree.old ≡ None → T.contents tree.new ≡ None }
        ensures cause { HasCause TreeError.Fault (T.fault_count tree.old) (T.fault_count tree.new) result }
        ensures told { T.answered tree.new
            ≡ with_answer (making_call self.now path.now) result (T.answered tree.old) }
    {
        match self {
            NewThing::Folder => tree.make_folder(alloc, path, FOLDER_MODE),
            NewThing::Link(text) => tree.make_link(alloc, path, text.as_str()),
        }
    }

    /// What a job is called that makes it.
    pub fn kind(&self) -> JobKind
        ensures { result ≡ making_kind self.now }
    {
        match self {
            NewThing::Folder => JobKind::MakeFolder,
            NewThing::Link(_) => JobKind::MakeLink,
        }
    }
}
