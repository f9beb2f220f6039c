//! The look at the things that are selected.
ghost use Rattle.std.specs.Prelude.{◌≡◌, ◌∷◌, [], true, None, IfOk};
ghost use Rattle.panel_state.specs.Selections.{selection};
ghost use Rattle.ui_words.specs.Chosen.{can_be_chosen};
ghost use Rattle.ui_plans.specs.Choices.{ArePathsIn, IsChoice, IsChoiceOf, IsLookAtFirst, IsThing};
ghost use Rattle.ui_plans.specs.Choices.{are_several, choice_refusals, looked_at, paths_in};
ghost use Rattle.ui_plans.specs.Reading.{ReadsTree, sight};

use mc_text::{Name, NoMemory, Path, PathError, Paths};
use panel_state::Panel;
use std::alloc::Global;
use tree_trait::{Meta, ReadTree, TreeError};
use ui_words::{Carry, Chosen};

/// Which box is opened on the things that are selected.
#[derive(Clone, Copy, Debug, Drop, PartialEq, Eq)]
pub enum Opens {
    Delete,
    SourceMask(Carry),
    Mode,
}

/// What choosing the things that are selected comes to.
#[derive(Debug, Drop)]
pub enum Choice {
    /// There is nothing: no name is tagged, and the cursor stands on `..`, or on no row.
    NoSelection,
    /// The path of one of them would be too long.
    TooLong,
    /// Things, and the mode that the first has, where it was looked at.
    Things(Chosen, u16),
    /// The look at this one was refused.
    Refused(Path, TreeError),
}

/// Chooses the things that are selected, of which a box then asks: those that are tagged, or else the one
/// under the cursor. One thing is looked at; of several the first, where a mode is asked for. It goes over
/// the shown names at most twice.
pub fn choose<T: ReadTree>(
    alloc: Global,
    tree: &mut T,
    panel: &Panel,
    opens: Opens,
) -> Result<Choice, NoMemory>
    ensures chosen { IfOk result (IsChoice opens (sight (T.contents tree.old)) panel.now) }
    ensures still { looked_at opens (paths_in panel.now.folder (selection panel.now)) ≡ None
        → tree.new ≡ tree.old }
    ensures reads { ReadsTree choice_refusals result (T.contents tree.old) (T.contents tree.new)
        (T.fault_count tree.old) (T.fault_count tree.new) }
{
    let names = panel.selection(alloc)?;
    match names.as_slice() {
        [] => Ok(Choice::NoSelection),
        [name] => choose_one(alloc, tree, panel, name, opens),
        [_, _, ..] => choose_several(alloc, tree, panel, names.as_slice(), opens),
    }
}

/// Looks at a thing in the panel's folder.
fn choose_one<T: ReadTree>(
    alloc: Global,
    tree: &mut T,
    panel: &Panel,
    name: &Name,
    opens: Opens,
) -> Result<Choice, NoMemory>
    ensures chosen { IfOk result
        (IsChoiceOf opens (sight (T.contents tree.old)) (paths_in panel.now.folder (name.now ∷ []))) }
    ensures reads { ReadsTree choice_refusals result (T.contents tree.old) (T.contents tree.new)
        (T.fault_count tree.old) (T.fault_count tree.new) }
{
    let path = match panel.folder().join(alloc, name) {
        Ok(path) => path,
        Err(PathError::TooLong(_)) => return Ok(Choice::TooLong),
        Err(_) => return Err(NoMemory),
    };
    match tree.stat(alloc, &path) {
        Ok(meta) => one_thing(alloc, path, meta),
        Err(TreeError::Memory) => Err(NoMemory),
        Err(error) => Ok(Choice::Refused(path, error)),
    }
}

/// One thing, and what was seen of it.
fn one_thing(alloc: Global, path: Path, meta: Meta) -> Result<Choice, NoMemory>
    requires within { can_be_chosen (path ∷ []) ≡ true }
    ensures { IfOk result (IsThing path meta) }
{
    let mut paths = Paths::new(alloc);
    paths.push(path)?;
    Ok(Choice::Things(Chosen { paths }, meta.mode))
}

/// Chooses several things in the panel's folder. Only for a mode the first is looked at.
fn choose_several<T: ReadTree>(
    alloc: Global,
    tree: &mut T,
    panel: &Panel,
    names: &[Name],
    opens: Opens,
) -> Result<Choice, NoMemory>
    requires several { are_several names.now ≡ true }
    ensures chosen { IfOk result
        (IsChoiceOf opens (sight (T.contents tree.old)) (paths_in panel.now.folder names.now)) }
    ensures still { looked_at opens (paths_in panel.now.folder names.now) ≡ None → tree.new ≡ tree.old }
    ensures reads { ReadsTree choice_refusals result (T.contents tree.old) (T.contents tree.new)
        (T.fault_count tree.old) (T.fault_count tree.new) }
{
    let Some(paths) = paths_in(alloc, panel.folder(), names)? else {
        return Ok(Choice::TooLong);
    };
    match opens {
        Opens::Delete | Opens::SourceMask(_) => Ok(Choice::Things(Chosen { paths }, 0)),
        Opens::Mode => with_first_mode(alloc, tree, Chosen { paths }),
    }
}

/// Things, of which the first is looked at.
fn with_first_mode<T: ReadTree>(
    alloc: Global,
    tree: &mut T,
    chosen: Chosen,
) -> Result<Choice, NoMemory>
    ensures chosen { IfOk result (IsLookAtFirst (sight (T.contents tree.old)) chosen.paths) }
    ensures reads { ReadsTree choice_refusals result (T.contents tree.old) (T.contents tree.new)
        (T.fault_count tree.old) (T.fault_count tree.new) }
{
    match chosen.paths.as_slice() {
        [] => unreachable!(),
        [first, ..] => match tree.stat(alloc, first) {
            Ok(meta) => Ok(Choice::Things(chosen, meta.mode)),
            Err(TreeError::Memory) => Err(NoMemory),
            Err(error) => Ok(Choice::Refused(first.copy(alloc)?, error)),
        },
    }
}

/// The paths of things in a folder, if none is too long.
fn paths_in(alloc: Global, folder: &Path, names: &[Name]) -> Result<Option<Paths>, NoMemory>
    ensures { IfOk result (ArePathsIn folder.now names.now) }
{
    let mut paths = Vec::with_capacity(alloc, names.len())?;
    for name in names {
        match folder.join(alloc, name) {
            Ok(path) => paths.push(path)?,
            Err(PathError::TooLong(_)) => return Ok(None),
            Err(_) => return Err(NoMemory),
        }
    }
    Ok(Some(Paths(paths)))
}
