//! The line that asks for a text.
ghost use Rattle.std.specs.Prelude.{◌≡◌, ◌++◌, ◌+◌, [], true, false, Ok, length};
ghost use Rattle.std.specs.Prelude.{string_bytes, encode_utf8, nat_le, IfOk, OnOk, OnErr};
ghost use Rattle.mc_dialogs.specs.InputKeys.{first_clusters, later_clusters, all_but_last};
ghost use Rattle.mc_dialogs.specs.InputKeys.{last_cluster, with_char, at_start, at_end};
ghost use Rattle.mc_dialogs.specs.InputKeys.{controlled_input, input_typed, input_after, closed_with};
ghost use Rattle.mc_dialogs.specs.InputKeys.{input_meta, input_closed, input_shut, letter_takes_memory};
ghost use Rattle.mc_dialogs.specs.InputKeys.{plain_takes_memory, meta_takes_memory, takes_memory};
ghost use Rattle.mc_dialogs.specs.InputField.{with_input};

use crate::clusters::{before_last, first_clusters, joined, later_clusters};
use crate::field::paint_field_box;
use crate::shut::{Reply, Shut};
use key_screen::{Base, Grid, Key};
use mc_text::{NoMemory, Text};
use std::alloc::Global;
use std::convert::AsStr;
use std::marker::Model;

/// The most bytes that typing makes of a text.
const MOST_BYTES: usize = 4096;

/// A line that asks for a text: what stands before the cursor and behind it.
#[derive(Debug, Drop)]
pub struct InputLine {
    title: Text,
    before: String,
    behind: String,
}

impl Model for InputLine {
    ghost use Rattle.std.specs.Prelude.{string_bytes};
    ghost use Rattle.mc_dialogs.specs.InputKeys.{InputState};

    ghost Value = { InputState };

    ghost view = { λ l. record {
      title = l.title;
      before = string_bytes l.before;
      behind = string_bytes l.behind;
    } };
}

impl InputLine {
    /// A line with this title and text, the cursor at the end of the text.
    pub fn new(alloc: Global, title: &str, text: &str) -> Result<InputLine, NoMemory>
        ensures { IfOk result
            (λ asked. asked ≡ record { title = title.now; before = text.now; behind = [] }) }
    {
        Ok(InputLine {
            title: Text::from_str(alloc, title)?,
            before: String::from_str(alloc, text)?,
            behind: String::new(alloc),
        })
    }

    /// What it answers to a key. Where memory is wanting it stays as it was; only some keys take any, and
    /// Escape and F10 take none.
    pub fn key(&mut self, alloc: Global, key: Key) -> Result<Shut, NoMemory>
        ensures state { OnOk result (self.new ≡ input_after self.old key) }
        ensures shut { IfOk result (λ shut. shut ≡ input_shut self.old key) }
        ensures refused { OnErr result (self.new ≡ self.old) }
        ensures memory { OnErr result (takes_memory key ≡ true) }
    {
        if key.meta {
            return self.meta_shut(alloc, key.base);
        }
        let shut = self.plain_shut(alloc, key.base)?;
        self.type_key(alloc, key.base)?;
        Ok(shut)
    }

    /// Paints it over a screen. Where memory is wanting, a part of it may stand.
    pub fn paint(&self, alloc: Global, grid: &mut Grid) -> Result<(), NoMemory>
        ensures { OnOk result (grid.new ≡ with_input grid.old self.now) }
    {
        paint_field_box(
            grid,
            alloc,
            &self.title,
            self.before.as_str(),
            self.behind.as_str(),
        )
    }

    /// What it answers to a key with meta.
    fn meta_shut(&self, alloc: Global, base: Base) -> Result<Shut, NoMemory>
        ensures value { IfOk result (λ shut. shut ≡ input_meta self.now base) }
        ensures memory { OnErr result (meta_takes_memory base ≡ true) }
    {
        match base {
            Base::Char('b') => self.closed(alloc, true),
            _ => Ok(Shut::Stay),
        }
    }

    /// What it answers to a key without meta.
    fn plain_shut(&self, alloc: Global, base: Base) -> Result<Shut, NoMemory>
        ensures value { IfOk result (λ shut. shut ≡ input_closed self.now base) }
        ensures memory { OnErr result (plain_takes_memory base ≡ true) }
    {
        match base {
            Base::Enter => self.closed(alloc, false),
            Base::Escape => Ok(Shut::Closed(Reply::Cancel)),
            Base::F(10) => Ok(Shut::Closed(Reply::Cancel)),
            _ => Ok(Shut::Stay),
        }
    }

    /// Its answer with the whole text.
    fn closed(&self, alloc: Global, background: bool) -> Result<Shut, NoMemory>
        ensures { IfOk result (λ shut. shut ≡ closed_with self.now background) }
    {
        let text = Text(joined(alloc, self.before.as_str(), self.behind.as_str())?);
        Ok(Shut::Closed(Reply::Line { text, background }))
    }

    /// What a key without meta makes of the text and the cursor.
    fn type_key(&mut self, alloc: Global, base: Base) -> Result<(), NoMemory>
        ensures done { OnOk result (self.new ≡ input_typed self.old base) }
        ensures refused { OnErr result (self.new ≡ self.old) }
        ensures memory { OnErr result (plain_takes_memory base ≡ true) }
    {
        match base {
            Base::Char(code) => self.insert(code),
            Base::Ctrl(letter) => self.control(alloc, letter),
            Base::Backspace => self.delete_before(alloc),
            Base::Delete => self.delete_behind(alloc),
            Base::Left => self.go_left(alloc),
            Base::Right => self.go_right(alloc),
            Base::Home => self.go_to_start(alloc),
            Base::End => self.go_to_end(alloc),
            _ => Ok(()),
        }
    }

    /// What control with a letter does.
    fn control(&mut self, alloc: Global, letter: u8) -> Result<(), NoMemory>
        ensures done { OnOk result (self.new ≡ controlled_input self.old letter) }
        ensures refused { OnErr result (self.new ≡ self.old) }
        ensures memory { OnErr result (letter_takes_memory letter ≡ true) }
    {
        match letter {
            b'a' => self.go_to_start(alloc),
            b'e' => self.go_to_end(alloc),
            b'k' => self.cut_to_end(alloc),
            b'u' => self.empty(alloc),
            _ => Ok(()),
        }
    }

    /// Puts a character before the cursor, where there is room for it.
    fn insert(&mut self, code: char) -> Result<(), NoMemory>
        ensures done { OnOk result (self.new ≡ with_char self.old code) }
        ensures refused { OnErr result (self.new ≡ self.old) }
    {
        if has_room(self.before.as_str(), self.behind.as_str(), code) {
            self.before.push(code)?;
        }
        Ok(())
    }

    /// Deletes the cluster before the cursor.
    fn delete_before(&mut self, alloc: Global) -> Result<(), NoMemory>
        ensures done { OnOk result (self.new ≡ record self.old { before = all_but_last self.old.before }) }
        ensures refused { OnErr result (self.new ≡ self.old) }
    {
        let count = before_last(self.before.as_str());
        let before = first_clusters(alloc, self.before.as_str(), count)?;
        self.before = before;
        Ok(())
    }

    /// Deletes the cluster behind the cursor.
    fn delete_behind(&mut self, alloc: Global) -> Result<(), NoMemory>
        ensures done { OnOk result
            (self.new ≡ record self.old { behind = later_clusters 1 self.old.behind }) }
        ensures refused { OnErr result (self.new ≡ self.old) }
    {
        let rest = later_clusters(alloc, self.behind.as_str(), 1)?;
        self.behind = rest;
        Ok(())
    }

    /// Moves the cursor over the cluster before it.
    fn go_left(&mut self, alloc: Global) -> Result<(), NoMemory>
        ensures done { OnOk result (self.new ≡ record self.old {
          before = all_but_last self.old.before;
          behind = last_cluster self.old.before ++ self.old.behind;
        }) }
        ensures refused { OnErr result (self.new ≡ self.old) }
    {
        let count = before_last(self.before.as_str());
        let before = first_clusters(alloc, self.before.as_str(), count)?;
        let passed = later_clusters(alloc, self.before.as_str(), count)?;
        let behind = joined(alloc, passed.as_str(), self.behind.as_str())?;
        self.before = before;
        self.behind = behind;
        Ok(())
    }

    /// Moves the cursor over the cluster behind it.
    fn go_right(&mut self, alloc: Global) -> Result<(), NoMemory>
        ensures done { OnOk result (self.new ≡ record self.old {
          before = self.old.before ++ first_clusters 1 self.old.behind;
          behind = later_clusters 1 self.old.behind;
        }) }
        ensures refused { OnErr result (self.new ≡ self.old) }
    {
        let passed = first_clusters(alloc, self.behind.as_str(), 1)?;
        let behind = later_clusters(alloc, self.behind.as_str(), 1)?;
        let before = joined(alloc, self.before.as_str(), passed.as_str())?;
        self.before = before;
        self.behind = behind;
        Ok(())
    }

    /// Moves the cursor to the start.
    fn go_to_start(&mut self, alloc: Global) -> Result<(), NoMemory>
        ensures done { OnOk result (self.new ≡ at_start self.old) }
        ensures refused { OnErr result (self.new ≡ self.old) }
    {
        let whole = joined(alloc, self.before.as_str(), self.behind.as_str())?;
        self.before = String::new(alloc);
        self.behind = whole;
        Ok(())
    }

    /// Moves the cursor to the end.
    fn go_to_end(&mut self, alloc: Global) -> Result<(), NoMemory>
        ensures done { OnOk result (self.new ≡ at_end self.old) }
        ensures refused { OnErr result (self.new ≡ self.old) }
    {
        let whole = joined(alloc, self.before.as_str(), self.behind.as_str())?;
        self.before = whole;
        self.behind = String::new(alloc);
        Ok(())
    }

    /// Cuts all behind the cursor. It takes no memory.
    fn cut_to_end(&mut self, alloc: Global) -> Result<(), NoMemory>
        ensures state { self.new ≡ record self.old { behind = [] } }
        ensures done { result ≡ Ok tt }
    {
        self.behind = String::new(alloc);
        Ok(())
    }

    /// Leaves no text. It takes no memory.
    fn empty(&mut self, alloc: Global) -> Result<(), NoMemory>
        ensures state { self.new ≡ record self.old { before = []; behind = [] } }
        ensures done { result ≡ Ok tt }
    {
        self.before = String::new(alloc);
        self.behind = String::new(alloc);
        Ok(())
    }
}

/// Whether a text on both sides of the cursor may take a character more.
fn has_room(before: &str, behind: &str, code: char) -> bool
    ensures { result ≡ nat_le (length before.now + length behind.now + length (encode_utf8 code)) 4096 }
{
    before.len() + behind.len() <= MOST_BYTES - code.len_utf8()
}
