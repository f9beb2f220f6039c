//! What the frame shows of the panels.
ghost use Rattle.std.specs.Prelude.{◌≡◌, ◌<◌, ◌+◌, ◌++◌, ◌^◌, IfOk, OnOk};
ghost use Rattle.panel_state.specs.Windows.{panel_rows};
ghost use Rattle.panel_pair.specs.Frames.{has_whole_screen, inside, items_from, look_of as mark_look};
ghost use Rattle.panel_pair.specs.Frames.{page_of, pane_of as pane_for, panes_of, shape_of as layout_shape};

use crate::panels::Panels;
use crate::side::Side;
use key_screen::Attr;
use mc_text::{NoMemory, Text};
use panel_state::{Layout, Mark, Panel, View};
use screen_frame::{ListingLine, ListingLines, Pane, Panes, Shape};
use std::alloc::Global;

/// The size of the screen, and the second of the last key since 1970, by which the times in rows are told.
#[derive(Clone, Copy, Debug)]
pub struct FrameSize {
    pub lines: u16,
    pub columns: u16,
    pub now: u64,
}

impl Panels {
    /// What a screen of this size shows of the panels. It takes the time of the rows on the screen,
    /// however long the listings are.
    pub fn panes(&self, alloc: Global, size: FrameSize) -> Result<Panes, NoMemory>
        ensures { IfOk result (λ panes. panes ≡ panes_of size self.now) }
    {
        if has_whole_screen(&self.current) {
            return Ok(Panes::Whole(pane_of(
                alloc,
                &self.current,
                true,
                view_of(size, size.columns),
            )?));
        }
        let half = view_of(size, size.columns / 2);
        let rest = view_of(size, size.columns - size.columns / 2);
        let is_left = self.side == Side::Left;
        Ok(Panes::Both(
            pane_of(alloc, self.left(), is_left, half)?,
            pane_of(alloc, self.right(), !is_left, rest)?,
        ))
    }
}

/// How many rows of a column are on a screen of so many lines.
pub fn page_of(lines: u16) -> usize
    ensures value { result ≡ page_of lines }
    ensures bound { result < 2 ^ 16 }
{
    usize::from(lines.saturating_sub(6))
}

/// Whether the current panel has the whole screen: where its format says so and its columns are shown.
fn has_whole_screen(panel: &Panel) -> bool
    ensures { result ≡ has_whole_screen panel.now.format }
{
    match panel.format().layout() {
        Layout::Columns => panel.format().format().is_full(),
        Layout::Brief => false,
    }
}

/// The room within a panel of so many columns.
fn view_of(size: FrameSize, width: u16) -> View
    ensures view { result ≡ record { columns = inside width; page = page_of size.lines; now = size.now } }
    ensures bound { result.page < 2 ^ 16 }
{
    View {
        columns: usize::from(width.saturating_sub(2)),
        page: page_of(size.lines),
        now: size.now,
    }
}

/// What a panel shows.
fn pane_of(alloc: Global, panel: &Panel, is_current: bool, view: View) -> Result<Pane, NoMemory>
    requires { view.page < 2 ^ 16 }
    ensures { IfOk result (λ pane. pane ≡ pane_for view is_current panel.now) }
{
    Ok(Pane {
        title: panel.folder().text(alloc)?,
        heading: panel.heading(alloc, view.columns)?,
        shape: shape_of(panel.format().layout()),
        items: items_of(alloc, panel, is_current, view)?,
        name: panel.current_text(alloc)?,
        unnamed: panel.listing().unnamed(),
        is_current,
    })
}

/// How many columns of items a layout has.
fn shape_of(layout: Layout) -> Shape
    ensures { result ≡ layout_shape layout }
{
    match layout {
        Layout::Columns => Shape::Full,
        Layout::Brief => Shape::Brief,
    }
}

/// The rows of a panel that are on the screen.
fn items_of(
    alloc: Global,
    panel: &Panel,
    is_current: bool,
    view: View,
) -> Result<ListingLines, NoMemory>
    requires { view.page < 2 ^ 16 }
    ensures { IfOk result
        (λ items. items ≡ items_from panel.now is_current panel.now.first (panel_rows view panel.now)) }
{
    let mut items = ListingLines::new(alloc);
    let rows = panel.rows(alloc, view)?;
    push_rows(
        &mut items,
        alloc,
        panel,
        is_current,
        panel.first(),
        rows.as_slice(),
    )?;
    Ok(items)
}

/// Adds the items of rows, of which the first is this one.
fn push_rows(
    items: &mut ListingLines,
    alloc: Global,
    panel: &Panel,
    is_current: bool,
    row: usize,
    texts: &[Text],
) -> Result<(), NoMemory>
    requires row { row < 2 ^ 61 }
    ensures { OnOk result (items.new ≡ items.old ++ items_from panel.now is_current row texts.now) }
{
    for (index, text) in texts.iter().enumerate() {
        items.push(ListingLine {
            text: text.copy(alloc)?,
            look: look_of(panel.mark(row + index, is_current)),
        })?;
    }
    Ok(())
}

/// How a row looks that is marked so.
fn look_of(mark: Mark) -> Attr
    ensures { result ≡ mark_look mark }
{
    match mark {
        Mark::Plain => Attr::Plain,
        Mark::Tagged => Attr::Bold,
        Mark::Current => Attr::Reverse,
    }
}
