//! How the menu opens.
ghost use Rattle.std.specs.Prelude.{◌≡◌, ◌⊎◌, IfOk, IfErr};
ghost use Rattle.mc_dialogs.specs.ListKeys.{list_moved};
ghost use Rattle.tree_trait.specs.declared.file_system.FileSystem.{FileSystem};
ghost use Rattle.tree_trait.specs.Answers.{HasCause};
ghost use Rattle.user_menu.specs.Facts.{IsAskedOf, AsksNoTree};
ghost use Rattle.user_menu.specs.ShownEntries.{shown_entries, EachTestIn};
ghost use Rattle.ui_menu.specs.MenuRows.{default_row, list_at, moved_down};
ghost use Rattle.ui_menu.specs.MenuScreens.{opened_menu};

use crate::menu_mode::MenuMode;
use crate::rows::{commands_of, rows_before, titles_of};
use key_screen::{Base, Key};
use mc_dialogs::ListBox;
use mc_text::{NoMemory, Rows};
use std::alloc::Global;
use tree_trait::{ReadTree, TreeError};
use user_menu::{Fact, Menu, Shown, shown};

impl MenuMode {
    /// A menu as it opens in the panel `here`, on a screen of so many lines: it lists the entries that are
    /// shown, and the default is current. The tree is looked at where a condition asks for a program.
    pub fn open<T: ReadTree>(
        alloc: Global,
        tree: &mut T,
        lines: u16,
        menu: &Menu,
        here: &Fact,
        other: &Fact,
    ) -> Result<MenuMode, TreeError>
        ensures opens { (s : FileSystem) → EachTestIn (IsAskedOf (T.contents tree.old) s) menu.now
            → IfOk result (λ mode.
            mode ≡ opened_menu lines menu.now (shown_entries s menu.now here.now other.now)) }

        // A look changes nothing, and where no condition asks for a program the tree isn't touched.
        ensures same { T.contents tree.new ≡ T.contents tree.old }
        ensures unasked { EachTestIn AsksNoTree menu.now → tree.new ≡ tree.old }

        ensures cause { HasCause TreeError.Fault (T.fault_count tree.old) (T.fault_count tree.new) result }
        ensures refused { IfErr result (λ e. (e ≡ TreeError.Memory) ⊎ (e ≡ TreeError.Fault)) }
    {
        let entries = shown(alloc, tree, menu, here, other)?;
        match opened(alloc, lines, menu, &entries) {
            Ok(mode) => Ok(mode),
            Err(NoMemory) => Err(TreeError::Memory),
        }
    }
}

/// A menu of which these entries are shown.
fn opened(alloc: Global, lines: u16, menu: &Menu, shown: &Shown) -> Result<MenuMode, NoMemory>
    ensures { IfOk result (λ mode. mode ≡ opened_menu lines menu.now shown.now) }
{
    let places = &shown.entries;
    let titles = titles_of(alloc, menu, places.0.as_slice())?;
    let commands = commands_of(alloc, menu, places.0.as_slice())?;
    let row = row_of(shown.default, places.0.as_slice());
    let list = list_at(alloc, titles, lines, row)?;
    Ok(MenuMode::new(list, commands))
}

/// The row of the default, or else the first one.
fn row_of(default: Option<usize>, places: &[usize]) -> usize
    ensures { result ≡ default_row default places.now }
{
    match default {
        None => 0,
        Some(place) => rows_before(places, place),
    }
}

/// A box with these rows, opened on the first one and moved down by so many keys.
fn list_at(alloc: Global, rows: Rows, lines: u16, row: usize) -> Result<ListBox, NoMemory>
    ensures { IfOk result (λ list. list ≡ list_at row rows lines) }
{
    let mut list = ListBox::new(alloc, "Menu", rows, lines, true)?;
    move_down(&mut list, row);
    Ok(list)
}

fn move_down(list: &mut ListBox, count: usize)
    ensures { list.new ≡ moved_down count list.old }
{
    for _ in 0..count {
        press_down(list);
    }
}

fn press_down(list: &mut ListBox)
    ensures { list.new ≡ list_moved list.old Base.Down }
{
    let _shut = list.key(Key {
        meta: false,
        base: Base::Down,
    });
}
