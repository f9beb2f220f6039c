//! The panels of two folders, as a session begins with them.
ghost use Rattle.std.specs.Prelude.{◌≡◌, IfOk, IfErr};
ghost use Rattle.mc_text.specs.Routes.{path_text};
ghost use Rattle.tree_trait.specs.Answers.{IfKnown, HasCause};
ghost use Rattle.resolving.specs.Errors.{CarriesCause};
ghost use Rattle.panel_state.specs.Readings.{opened_panel};
ghost use Rattle.panel_pair.specs.Pairs.{opened_pair, unread_pair};
ghost use Rattle.panel_pair.specs.Openings.{OpensBoth, ShowsPath, refused_opening};
ghost use Rattle.panel_pair.specs.Readings.{ReadsTree};

use crate::panels::Panels;
use crate::side::Side;
use mc_text::{NoMemory, Path};
use panel_state::Panel;
use resolving::{ResolveError, Wanted, resolve};
use std::alloc::Global;
use std::convert::AsStr;
use tagging::PatternKind;
use tree_trait::ReadTree;

/// Why a folder can't be opened, and on which side it was to be.
#[derive(Debug, Drop)]
pub struct Unopened {
    pub side: Side,
    pub error: ResolveError,
}

impl Panels {
    /// The panels of a session that shows none: both of the root, of which nothing is read.
    pub fn unread(alloc: Global) -> Result<Panels, NoMemory>
        ensures { IfOk result (λ pair. pair ≡ unread_pair) }
    {
        let current = Panel::unread(alloc)?;
        let other = Panel::unread(alloc)?;
        Ok(Panels {
            current,
            other,
            side: Side::Left,
            patterns: PatternKind::Shell,
        })
    }

    /// The panels of the folders that two paths lead to. The left one is read first, and is current. It
    /// takes a look for each child of both.
    pub fn open<T: ReadTree>(
        alloc: Global,
        tree: &mut T,
        left: &Path,
        right: &Path,
    ) -> Result<Panels, Unopened>
        ensures opened { IfOk result (λ pair. pair
            ≡ opened_pair pair.current.folder pair.other.folder pair.current.listing pair.other.listing) }
        ensures answer { IfKnown (T.contents tree.old) (λ log. OpensBoth log left.now right.now result) }
        ensures reads { ReadsTree (refused_opening result) (T.contents tree.old) (T.contents tree.new)
            (T.fault_count tree.old) (T.fault_count tree.new) }
        ensures carried { IfErr result (λ unopened. CarriesCause unopened.error) }
    {
        let current = match opened(alloc, tree, left) {
            Ok(panel) => panel,
            Err(error) => return Err(refused_on(Side::Left, error)),
        };
        let other = match opened(alloc, tree, right) {
            Ok(panel) => panel,
            Err(error) => return Err(refused_on(Side::Right, error)),
        };
        Ok(Panels {
            current,
            other,
            side: Side::Left,
            patterns: PatternKind::Shell,
        })
    }
}

/// The panel of the folder that a path leads to.
fn opened<T: ReadTree>(alloc: Global, tree: &mut T, path: &Path) -> Result<Panel, ResolveError>
    ensures opened { IfOk result (λ panel. panel ≡ opened_panel panel.folder panel.listing) }
    ensures answer { IfKnown (T.contents tree.old) (λ log. ShowsPath log path.now result) }
    ensures same { T.contents tree.new ≡ T.contents tree.old }
    ensures cause { HasCause ResolveError.Fault (T.fault_count tree.old) (T.fault_count tree.new) result }
    ensures carried { IfErr result CarriesCause }
{
    let text = path.text(alloc)?;
    let folder = resolve(
        alloc,
        tree,
        Wanted::FolderAlone,
        &Path::root(alloc),
        text.as_str(),
    )?;
    Panel::open(alloc, tree, folder)
}

/// Why the folder of a side can't be opened.
fn refused_on(side: Side, error: ResolveError) -> Unopened
    ensures { result ≡ record { side = side; error = error } }
{
    Unopened { side, error }
}
