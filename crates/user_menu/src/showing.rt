//! Which entries of a menu are shown, and which one is the default.
ghost use Rattle.std.specs.Prelude.{◌≡◌, ◌⊎◌, map, IfOk, IfErr};
ghost use Rattle.tree_trait.specs.declared.file_system.FileSystem.{FileSystem};
ghost use Rattle.tree_trait.specs.Answers.{HasCause};
ghost use Rattle.user_menu.specs.Facts.{IsAskedOf, AsksNoTree};
ghost use Rattle.user_menu.specs.ShownEntries.{standing_of, shown_entries, EachTestAsked, EachTestIn};

use crate::choosing::{Standing, chosen};
use crate::fact::Fact;
use crate::menu::{Entry, Menu, Shown};
use crate::pushing::push;
use crate::standing::standing_of;
use mc_text::NoMemory;
use std::alloc::Global;
use tree_trait::{ReadTree, TreeError};

/// Which entries of a menu are shown, opened in the panel `here`, and the first of these that is to be the
/// default. The tree is looked at where a condition asks for a program.
pub fn shown<T: ReadTree>(
    alloc: Global,
    tree: &mut T,
    menu: &Menu,
    here: &Fact,
    other: &Fact,
) -> Result<Shown, TreeError>
    ensures answer { (s : FileSystem) → EachTestIn (IsAskedOf (T.contents tree.old) s) menu.now
        → IfOk result (λ shown. shown ≡ shown_entries s menu.now here.now other.now) }

    // A look changes nothing, and where no condition asks for a program the tree isn't touched.
    ensures same { T.contents tree.new ≡ T.contents tree.old }
    ensures unasked { EachTestIn AsksNoTree menu.now → tree.new ≡ tree.old }

    ensures cause { HasCause TreeError.Fault (T.fault_count tree.old) (T.fault_count tree.new) result }
    ensures refused { IfErr result (λ e. (e ≡ TreeError.Memory) ⊎ (e ≡ TreeError.Fault)) }
{
    let standings = standings_of(alloc, tree, menu, here, other)?;
    match chosen(alloc, standings.as_slice()) {
        Ok(shown) => Ok(shown),
        Err(NoMemory) => Err(TreeError::Memory),
    }
}

/// How each entry of a menu stands.
fn standings_of<T: ReadTree>(
    alloc: Global,
    tree: &mut T,
    menu: &Menu,
    here: &Fact,
    other: &Fact,
) -> Result<Vec<Standing>, TreeError>
    ensures answer { (s : FileSystem) → EachTestIn (IsAskedOf (T.contents tree.old) s) menu.now
        → IfOk result (λ standings. standings.items ≡ map (standing_of s here.now other.now) menu.now) }
    ensures same { T.contents tree.new ≡ T.contents tree.old }
    ensures unasked { EachTestIn AsksNoTree menu.now → tree.new ≡ tree.old }
    ensures cause { HasCause TreeError.Fault (T.fault_count tree.old) (T.fault_count tree.new) result }
    ensures refused { IfErr result (λ e. (e ≡ TreeError.Memory) ⊎ (e ≡ TreeError.Fault)) }
{
    let mut standings = Vec::new(alloc);
    let mut entries = menu.entries();
    while let Some((entry, more)) = entries.split_first() {
        let standing = standing_of(alloc, tree, entry, here, other)?;
        push(&mut standings, standing)?;
        entries = more;
    }
    Ok(standings)
}
