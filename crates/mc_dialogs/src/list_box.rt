//! The box that lists rows.
ghost use Rattle.std.specs.Prelude.{◌≡◌, ℕ, ◌-◌, ◌+◌, ◌<◌, ◌≤◌, ◌^◌, ◌==◌, if◌then◌else◌};
ghost use Rattle.std.specs.Prelude.{Some, None, length, IfOk, IfSome, OnOk};
ghost use Rattle.std.specs.Str.{chars};
ghost use Rattle.mc_dialogs.specs.ListKeys.{moved_to, scrolled_to, first_is, chosen_by, chosen_row};
ghost use Rattle.mc_dialogs.specs.ListKeys.{list_closed, list_after, list_lines, list_shut};
ghost use Rattle.mc_dialogs.specs.Boxes.{with_box};

use crate::list_painting::{paint_list, rows_from};
use crate::shut::{Reply, Shut};
use key_screen::{Base, Grid, Key};
use mc_text::{NoMemory, Rows, Text};
use std::alloc::Global;
use std::convert::AsStr;
use std::marker::Model;

/// A box that lists rows, of which one is current.
#[derive(Debug, Drop)]
pub struct ListBox {
    title: Text,
    rows: Rows,
    lines: u16,
    by_letter: bool,
    current: usize,
    first: usize,
}

impl Model for ListBox {
    ghost use Rattle.std.specs.Prelude.{◌<◌, ◌≤◌, ◌+◌, ◌^◌, ◌-◌, length};
    ghost use Rattle.mc_dialogs.specs.ListKeys.{ListState};

    ghost Value = { ListState };

    ghost view = { λ b. record {
      title = b.title;
      rows = b.rows;
      lines = b.lines;
      by_letter = b.by_letter;
      current = b.current;
      first = b.first;
    } };

    ghost invariant = { λ b. (b.current ≤ length b.rows - 1) × (b.first ≤ length b.rows + 1)
        × (b.lines < 2 ^ 16) × (length b.rows < 2 ^ 59) };
}

impl ListBox {
    /// A box with this title and these rows on a screen of so many lines, the first row current. With
    /// `letters` a character chooses the first row that it begins.
    pub fn new(
        alloc: Global,
        title: &str,
        rows: Rows,
        lines: u16,
        letters: bool,
    ) -> Result<ListBox, NoMemory>
        ensures { IfOk result (λ asked. asked ≡ record {
          title = title.now;
          rows = rows;
          lines = lines;
          by_letter = letters;
          current = 0;
          first = 0;
        }) }
    {
        Ok(ListBox {
            title: Text::from_str(alloc, title)?,
            rows,
            lines,
            by_letter: letters,
            current: 0,
            first: 0,
        })
    }

    /// The position of the current row, counted from 0; none where there are no rows.
    pub fn current(&self) -> Option<usize>
        ensures value { result ≡ (if length self.now.rows == 0 then None else Some self.now.current) }
        ensures within { IfSome result (λ row. row < length self.now.rows) }
    {
        if self.rows.as_slice().is_empty() {
            return None;
        }
        Some(self.current)
    }

    /// What it answers to a key. It takes no memory.
    pub fn key(&mut self, key: Key) -> Result<Shut, NoMemory>
        ensures state { self.new ≡ list_after self.old key }
        ensures within { self.new.current ≤ length self.new.rows - 1 }
        ensures shut { result ≡ Ok (list_shut self.old key) }
    {
        let count = self.rows.as_slice().len();
        let page = usize::from(self.lines).saturating_sub(6);
        if key.meta {
            return Ok(Shut::Stay);
        }
        let shut = self.shut_by(key.base);
        self.current = moved(count, page, self.current, key.base);
        self.first = scrolled(page, self.first, self.current);
        Ok(shut)
    }

    /// What it would answer to a key. It stays as it is.
    pub fn answer_to(&self, key: Key) -> Shut
        ensures { result ≡ list_shut self.now key }
    {
        if key.meta {
            return Shut::Stay;
        }
        self.shut_by(key.base)
    }

    /// Paints it over a screen; on one of the lines that it was made for all that it shows has room. Where
    /// memory is wanting, a part of it may stand.
    pub fn paint(&self, alloc: Global, grid: &mut Grid) -> Result<(), NoMemory>
        ensures { OnOk result (grid.new ≡ with_box grid.old (list_lines self.now)) }
    {
        let page = usize::from(self.lines).saturating_sub(6);
        let rows = rows_from(self.rows.as_slice(), self.first, page);
        paint_list(
            grid,
            alloc,
            self.title.as_str(),
            rows,
            self.first,
            self.current,
        )
    }

    /// What it answers to a key without meta.
    fn shut_by(&self, base: Base) -> Shut
        ensures { result ≡ list_closed self.now base }
    {
        match base {
            Base::Char(code) => self.chosen(code),
            Base::Enter => Shut::Closed(self.chosen_now()),
            Base::Escape => Shut::Closed(Reply::Cancel),
            Base::F(10) => Shut::Closed(Reply::Cancel),
            _ => Shut::Stay,
        }
    }

    /// What a character answers.
    fn chosen(&self, code: char) -> Shut
        ensures { result ≡ (if self.now.by_letter then chosen_by code 0 self.now.rows else Shut.Stay) }
    {
        if !self.by_letter {
            return Shut::Stay;
        }
        first_row_with(self.rows.as_slice(), code)
    }

    /// What Enter answers.
    fn chosen_now(&self) -> Reply
        ensures { result ≡ chosen_row self.now }
    {
        if self.rows.as_slice().is_empty() {
            return Reply::Cancel;
        }
        Reply::Chosen(self.current)
    }
}

/// The first row that begins with a character.
fn first_row_with(rows: &[Text], code: char) -> Shut
    ensures { result ≡ chosen_by code 0 rows.now }
{
    for (position, row) in rows.iter().enumerate() {
        if begins_with(row.as_str(), code) {
            return Shut::Closed(Reply::Chosen(position));
        }
    }
    Shut::Stay
}

/// Whether a row begins with a character.
fn begins_with(row: &str, code: char) -> bool
    ensures { result ≡ first_is code (chars row.now) }
{
    match row.chars().next() {
        Some(first) => first == code,
        None => false,
    }
}

/// The row that a key makes current, of so many.
pub fn moved(count: usize, page: usize, current: usize, base: Base) -> usize
    requires current { current < 2 ^ 60 }
    requires page { page < 2 ^ 16 }
    ensures value { result ≡ moved_to count page current base }
    ensures bound { current ≤ count - 1 → result ≤ count - 1 }
{
    let last = count.saturating_sub(1);
    match base {
        Base::Up => current.saturating_sub(1),
        Base::Down => (current + 1).min(last),
        Base::Home => 0,
        Base::End => last,
        Base::PgUp => current.saturating_sub(page),
        Base::PgDn => (current + page).min(last),
        _ => current,
    }
}

/// The first row shown: the least change of the old one that shows the current row.
pub fn scrolled(page: usize, first: usize, current: usize) -> usize
    requires first { first < 2 ^ 60 }
    requires current { current < 2 ^ 60 }
    requires page { page < 2 ^ 16 }
    ensures value { result ≡ scrolled_to page first current }
    ensures near { result ≤ current + 1 }
    ensures bound { (last : ℕ) → first ≤ last → current + 1 ≤ last → result ≤ last }
{
    if current < first {
        return current;
    }
    if first + page <= current {
        return (current + 1).saturating_sub(page);
    }
    first
}
