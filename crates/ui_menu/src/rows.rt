//! The rows of the menu's box.
ghost use Rattle.std.specs.Prelude.{◌≡◌, ◌++◌, IfOk, OnOk};
ghost use Rattle.std.specs.List.{flat_map};
ghost use Rattle.ui_menu.specs.MenuRows.{command_at, rows_before, title_at};

use mc_text::{NoMemory, Rows, Text, Texts};
use std::alloc::Global;
use user_menu::Menu;

/// The titles of the entries of a menu at these places.
pub fn titles_of(alloc: Global, menu: &Menu, places: &[usize]) -> Result<Rows, NoMemory>
    ensures { IfOk result (λ titles. titles ≡ flat_map (title_at menu.now) places.now) }
{
    let mut titles = Vec::new(alloc);
    for place in places {
        push_title(&mut titles, alloc, menu, *place)?;
    }
    Ok(Rows(titles))
}

fn push_title(
    titles: &mut Vec<Text>,
    alloc: Global,
    menu: &Menu,
    place: usize,
) -> Result<(), NoMemory>
    ensures { OnOk result (titles.new.items ≡ titles.old.items ++ title_at menu.now place) }
{
    if place < menu.len() {
        titles.push(Text::from_str(alloc, menu.title(place))?)?;
    }
    Ok(())
}

/// The commands of the entries of a menu at these places.
pub fn commands_of(alloc: Global, menu: &Menu, places: &[usize]) -> Result<Texts, NoMemory>
    ensures { IfOk result (λ commands. commands ≡ flat_map (command_at menu.now) places.now) }
{
    let mut commands = Vec::new(alloc);
    for place in places {
        push_command(&mut commands, alloc, menu, *place)?;
    }
    Ok(Texts(commands))
}

fn push_command(
    commands: &mut Vec<Text>,
    alloc: Global,
    menu: &Menu,
    place: usize,
) -> Result<(), NoMemory>
    ensures { OnOk result (commands.new.items ≡ commands.old.items ++ command_at menu.now place) }
{
    if place < menu.len() {
        commands.push(Text::from_str(alloc, menu.commands(place))?)?;
    }
    Ok(())
}

/// How many of the places stand before this one.
pub fn rows_before(places: &[usize], place: usize) -> usize
    ensures { result ≡ rows_before place places.now }
{
    let mut rows = 0;
    let mut rest = places;
    while let Some((first, more)) = rest.split_first() {
        if *first == place {
            return rows;
        }
        rows += 1;
        rest = more;
    }
    rows
}
