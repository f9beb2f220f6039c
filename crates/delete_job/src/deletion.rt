//! A deletion as it stands.
ghost use Rattle.std.specs.Prelude.{◌≡◌, Some};
ghost use Rattle.mc_text.specs.Routes.{parent_of};
ghost use Rattle.delete_job.specs.Standing.{after_item, at_barrier, begun_walk, is_fresh};

use mc_text::Path;
use std::alloc::Global;
use tree_walk::Walk;

/// How far it is, as its history tells.
#[derive(Clone, Copy, Debug, Drop, PartialEq, Eq)]
pub enum Stage {
    /// Nothing was changed yet.
    Begin,
    /// Something was.
    Going,
    /// Each thing is gone or was left. What was changed is synced.
    Sync,
}

/// What the walk is at.
#[derive(Clone, Copy, Debug, Drop, PartialEq, Eq)]
pub enum Depth {
    /// The thing itself, which may be a folder that isn't open yet.
    Top,
    /// What lies in it, and then its end.
    Inside,
}

/// The deletion of a thing with all that lies in it.
#[derive(Debug, Drop)]
pub struct Deletion {
    pub path: Path,
    pub folder: Path,
    pub stage: Stage,
    pub depth: Depth,
    pub walk: Walk,
}

impl Deletion {
    /// A deletion of the thing at `path`, which lies in `folder`. It takes no memory.
    pub fn new(alloc: Global, path: Path, folder: Path) -> Deletion
        requires holder { parent_of path ≡ Some folder }
        ensures path { result.path ≡ path }
        ensures folder { result.folder ≡ folder }
        ensures begun { result.walk.place ≡ begun_walk }
        ensures stage { result.stage ≡ Stage.Begin }
        ensures depth { result.depth ≡ Depth.Top }
    {
        Deletion {
            path,
            folder,
            stage: Stage::Begin,
            depth: Depth::Top,
            walk: Walk::new(alloc),
        }
    }

    /// Whether nothing was changed yet.
    pub fn is_fresh(&self) -> bool
        ensures { result ≡ is_fresh self.now.stage }
    {
        match self.stage {
            Stage::Begin => true,
            Stage::Going | Stage::Sync => false,
        }
    }

    /// Whether the next call is at a barrier, where nothing can be skipped.
    pub fn is_at_barrier(&self) -> bool
        ensures { result ≡ at_barrier self.now.stage }
    {
        match self.stage {
            Stage::Begin | Stage::Going => false,
            Stage::Sync => true,
        }
    }
}

/// How far it is once a thing was decided: the thing that is deleted is the last.
pub(crate) fn stage_after(stage: Stage, top: &Path, path: &Path) -> Stage
    ensures { result ≡ after_item top.now path.now stage }
{
    if path.same(top) { Stage::Sync } else { stage }
}
