//! A menu, its entries, and what is shown of them.
ghost use Rattle.std.specs.Prelude.{◌≡◌, ◌==◌, ◌<◌, ◌∷◌, [], ◌++◌, None, Some};
ghost use Rattle.std.specs.Prelude.{IfOk, OnOk, length, option_map, slice_get};
ghost use Rattle.user_menu.specs.Menus.{with_line, command_text};

use crate::line::Asked;
use mc_text::{NoMemory, Places, Text};
use std::alloc::Global;
use std::convert::AsStr;
use std::marker::Model;

/// An entry of a menu.
#[derive(Drop)]
pub struct Entry {
    conditions: Vec<Asked>,
    title: Text,
    /// Nothing before the first command line.
    commands: Option<Text>,
}

impl Model for Entry {
    ghost use Rattle.user_menu.specs.Menus.{MenuEntry};

    ghost Value = { MenuEntry };

    ghost view = { λ e. record { conditions = e.conditions.items; title = e.title; commands = e.commands } };
}

impl Entry {
    /// An entry without commands. It takes no memory.
    pub fn new(conditions: Vec<Asked>, title: Text) -> Entry
        ensures { result ≡ record { conditions = conditions.items; title = title; commands = None } }
    {
        Entry {
            conditions,
            title,
            commands: None,
        }
    }

    /// Puts a command line behind the others.
    pub fn add_line(&mut self, alloc: Global, line: Text) -> Result<(), NoMemory>
        ensures { OnOk result (self.new ≡ record {
          conditions = self.old.conditions;
          title = self.old.title;
          commands = with_line self.old.commands line;
        }) }
    {
        let commands = self.commands.take();
        self.commands = Some(with_line(commands, line)?);
        Ok(())
    }

    /// The conditions in their order.
    pub fn conditions(&self) -> &[Asked]
        ensures { result.now ≡ self.now.conditions }
    {
        self.conditions.as_slice()
    }

    /// The title.
    pub fn title(&self) -> &str
        ensures { result.now ≡ self.now.title }
    {
        self.title.as_str()
    }

    /// The command lines, joined by newlines.
    pub fn commands(&self) -> &str
        ensures { result.now ≡ command_text self.now }
    {
        match &self.commands {
            Some(commands) => commands.as_str(),
            None => "",
        }
    }
}

/// Command lines with one more.
fn with_line(commands: Option<Text>, line: Text) -> Result<Text, NoMemory>
    ensures { IfOk result (λ commands_new. Some commands_new ≡ with_line commands line) }
{
    let Some(Text(mut commands)) = commands else {
        return Ok(line);
    };
    commands.push('\n')?;
    commands.push_str(line.as_str())?;
    Ok(Text(commands))
}

/// The entries of a menu. Contracts see them in the order of the file.
#[derive(Drop)]
pub struct Menu {
    entries: Vec<Entry>,
}

impl Model for Menu {
    ghost use Rattle.std.specs.Prelude.{List};
    ghost use Rattle.user_menu.specs.Menus.{MenuEntry};

    ghost Value = { List MenuEntry };

    ghost view = { λ m. m.entries.items };
}

impl Menu {
    /// The menu of these entries.
    pub(crate) fn of(entries: Vec<Entry>) -> Menu
        ensures { result ≡ entries.items }
    {
        Menu { entries }
    }

    /// The entries in their order.
    pub(crate) fn entries(&self) -> &[Entry]
        ensures { result.now ≡ self.now }
    {
        self.entries.as_slice()
    }

    /// How many entries there are.
    pub fn len(&self) -> usize
        ensures { result ≡ length self.now }
    {
        self.entries.len()
    }

    /// Whether there are none.
    pub fn is_empty(&self) -> bool
        ensures { result ≡ (length self.now == 0) }
    {
        self.entries.is_empty()
    }

    /// The title of an entry, which is counted from 0.
    pub fn title(&self, entry: usize) -> &str
        requires { entry < length self.now }
        ensures { option_map (λ entry. entry.title) (slice_get self.now entry) ≡ Some result.now }
    {
        self.entries[entry].title()
    }

    /// The commands of an entry, joined by newlines, their macros not yet expanded.
    pub fn commands(&self, entry: usize) -> &str
        requires { entry < length self.now }
        ensures { option_map command_text (slice_get self.now entry) ≡ Some result.now }
    {
        self.entries[entry].commands()
    }
}

/// The entries that are shown, in their order, and the one that is the default, each by its
/// number from 0 in the menu.
#[derive(Debug, Drop)]
pub struct Shown {
    pub entries: Places,
    pub default: Option<usize>,
}
