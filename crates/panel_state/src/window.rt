//! What the frame shows of a panel.
ghost use Rattle.std.specs.Prelude.{◌≡◌, ◌++◌, ◌<◌, ◌^◌, codes, Ok, IfOk};
ghost use Rattle.panel_listing.specs.FormatTexts.{RowFormat};
ghost use Rattle.panel_state.specs.Windows.{panel_heading, panel_rows, brief_rows};
ghost use Rattle.panel_state.specs.Windows.{brief_format, column_rows, narrowed_view, mark_of};

use crate::format::{Layout, no_memory};
use crate::panel::Panel;
use mc_text::{NoMemory, Rows, Text};
use panel_listing::{Format, Window, heading, rows};
use std::alloc::Global;

/// The format of the rows in brief.
pub const BRIEF_FORMAT: &str = "half type name";

/// The room that a panel has on the screen: so many columns between its walls, a page of so many rows,
/// at this second since 1970.
#[derive(Clone, Copy, Debug)]
pub struct View {
    pub columns: usize,
    pub page: usize,
    pub now: u64,
}

/// How a row is marked.
#[derive(Clone, Copy, Debug, PartialEq, Eq)]
pub enum Mark {
    Plain,
    Tagged,
    Current,
}

impl Panel {
    /// What stands over the rows, in so many columns; in brief over each of the two columns.
    pub fn heading(&self, alloc: Global, columns: usize) -> Result<Text, NoMemory>
        ensures { IfOk result (λ text. text ≡ panel_heading columns self.now.format) }
    {
        match self.format.layout() {
            Layout::Columns => heading(alloc, self.format.format(), columns),
            Layout::Brief => Text::from_str(alloc, "Name"),
        }
    }

    /// The rows on the screen; in brief those of the first column, and then those of the second. The time
    /// grows as their number, and not with the listing.
    pub fn rows(&self, alloc: Global, view: View) -> Result<Rows, NoMemory>
        requires { view.page < 2 ^ 16 }
        ensures { IfOk result (λ rows. rows ≡ panel_rows view self.now) }
    {
        match self.format.layout() {
            Layout::Columns => self.rows_from(alloc, self.format.format(), view, self.first),
            Layout::Brief => self.brief_rows(alloc, view),
        }
    }

    /// How a row is marked, on the panel that is current or on the other one.
    #[tactic(auto, using(crate::proofs::TagLemmas::read_back))]
    pub fn mark(&self, row: usize, is_current: bool) -> Mark
        ensures { result ≡ mark_of row is_current self.now }
    {
        if is_current && row == self.cursor {
            return Mark::Current;
        }
        match self.listing.item(row) {
            Some(item) if self.tags.has(item.name.text()) => Mark::Tagged,
            _ => Mark::Plain,
        }
    }

    /// The rows of a column from a row on.
    #[tactic(auto, using(crate::proofs::TagLemmas::read_back), unfolding(crate::specs::Windows::column_rows))]
    fn rows_from(
        &self,
        alloc: Global,
        format: &Format,
        view: View,
        first: usize,
    ) -> Result<Rows, NoMemory>
        ensures { IfOk result (λ rows. rows ≡ column_rows view first format.now self.now) }
    {
        let window = Window {
            columns: view.columns,
            first,
            count: view.page,
            now: view.now,
        };
        rows(alloc, &self.listing, &self.tags, format, window)
    }

    /// The rows of two columns of names. A wall stands between them, and the first has
    /// half of what that leaves.
    fn brief_rows(&self, alloc: Global, view: View) -> Result<Rows, NoMemory>
        requires { view.page < 2 ^ 16 }
        ensures { IfOk result (λ rows. rows ≡ brief_rows view self.now) }
    {
        let format = brief_format(alloc)?;
        let inside = view.columns.saturating_sub(1);
        let half = inside / 2;
        let left = self.rows_from(alloc, &format, narrowed(view, half), self.first)?;
        let next = self.first + view.page;
        let right = self.rows_from(alloc, &format, narrowed(view, inside - half), next)?;
        join(left, right)
    }
}

/// Rows behind others.
fn join(mut rows: Rows, mut more: Rows) -> Result<Rows, NoMemory>
    ensures { IfOk result (λ all. all ≡ rows ++ more) }
{
    rows.0.append(&mut more.0)?;
    Ok(rows)
}

/// The view of so many columns.
fn narrowed(view: View, columns: usize) -> View
    ensures { result ≡ record view { columns = columns } }
{
    View { columns, ..view }
}

/// The format of the rows in brief.
fn brief_format(alloc: Global) -> Result<Format, NoMemory>
    ensures { IfOk result (λ format. format ≡ brief_format) }
{
    match Format::parse(alloc, BRIEF_FORMAT) {
        Ok(format) => Ok(format),
        Err(error) => Err(no_memory(error)),
    }
}
