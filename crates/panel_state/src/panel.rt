//! A panel: a folder's listing with a cursor on one of its rows, and the first row on the screen.
ghost use Rattle.std.specs.Prelude.{◌≡◌, ◌≢◌, ◌+◌, ◌-◌, ◌<◌, ◌≤◌, ◌^◌, if◌then◌else◌};
ghost use Rattle.std.specs.Prelude.{[], codes, IfOk, IfErr, IfSome, length, option_map};
ghost use Rattle.mc_text.specs.Routes.{spelled_route};
ghost use Rattle.panel_listing.specs.Orders.{AreArranged};
ghost use Rattle.panel_listing.specs.Listings.{rows_in};
ghost use Rattle.panel_state.specs.Panels.{tag_set, row_count, current_name, current_path};
ghost use Rattle.panel_state.specs.Panels.{current_text, moved_by, with_format, with_brief};

use crate::format::{Layout, PanelFormat};
use crate::scrolling::{rows_shown, scrolled};
use crate::visits::Visits;
use key_screen::Base;
use mc_dialogs::moved;
use mc_text::{Name, NoMemory, Path, PathError, Text};
use panel_listing::{Listing, Wish};
use std::alloc::Global;
use std::marker::Model;
use tagging::Tags;

/// A panel. Its first row is `..` unless its folder is the root.
///
/// A key that moves the cursor, tags the current name or draws takes a time that doesn't grow with the
/// listing, but for the logarithm of the number of tags. Reading and arranging take that of the listing,
/// what goes over names (patterns, the selection, the comparison) the number of rows, times that logarithm.
#[derive(Drop)]
pub struct Panel {
    pub(crate) folder: Path,
    pub(crate) listing: Listing,
    pub(crate) wish: Wish,
    pub(crate) format: PanelFormat,
    pub(crate) tags: Tags,
    pub(crate) cursor: usize,
    pub(crate) first: usize,
    pub(crate) visits: Visits,
}

impl Model for Panel {
    ghost use Rattle.std.specs.FinSet as set;
    ghost use Rattle.panel_state.specs.Panels.{PanelState, IsSteady};

    ghost Value = { PanelState };

    ghost view = { λ p. record {
      folder = p.folder;
      listing = p.listing;
      wish = p.wish;
      format = p.format;
      tags = set.items p.tags;
      cursor = p.cursor;
      first = p.first;
      visits = p.visits;
    } };

    ghost invariant = { λ p. IsSteady p.wish p.listing p.cursor p.first };
}

impl Panel {
    /// Its folder, a path without links.
    pub fn folder(&self) -> &Path
        ensures { result.now ≡ self.now.folder }
    {
        &self.folder
    }

    /// What its folder held when it was read.
    pub fn listing(&self) -> &Listing
        ensures listing { result.now ≡ self.now.listing }
        ensures arranged { AreArranged self.now.wish self.now.listing.items self.now.listing.shown }
    {
        &self.listing
    }

    /// What is shown of it, and in which order.
    pub fn wish(&self) -> &Wish
        ensures { result.now ≡ self.now.wish }
    {
        &self.wish
    }

    /// How its rows are shown.
    pub fn format(&self) -> &PanelFormat
        ensures { result.now ≡ self.now.format }
    {
        &self.format
    }

    /// The tagged names.
    #[tactic(auto, using(crate::proofs::TagLemmas::read_back))]
    pub fn tags(&self) -> &Tags
        ensures { result.now ≡ tag_set self.now }
    {
        &self.tags
    }

    /// The row of the cursor.
    pub fn cursor(&self) -> usize
        ensures value { result ≡ self.now.cursor }
        ensures within { result ≤ row_count self.now - 1 }
        ensures bound { result < 2 ^ 60 }
    {
        self.cursor
    }

    /// The first row on the screen.
    pub fn first(&self) -> usize
        ensures value { result ≡ self.now.first }
        ensures bound { result ≤ 2 ^ 60 }
    {
        self.first
    }

    /// How many rows there are.
    pub fn row_count(&self) -> usize
        ensures value { result ≡ row_count self.now }
        ensures bound { result < 2 ^ 60 }
    {
        self.listing.len()
    }

    /// The name under the cursor, if it isn't `..`.
    pub fn current_name(&self) -> Option<&Name>
        ensures { option_map (λ name. name.now) result ≡ current_name self.now }
    {
        match self.listing.item(self.cursor) {
            None => None,
            Some(item) => Some(&item.name),
        }
    }

    /// The path of the thing under the cursor, if it isn't `..`.
    pub fn current_path(&self, alloc: Global) -> Result<Option<Path>, PathError>
        ensures path { IfOk result (λ path. path ≡ current_path self.now) }
        ensures fits { IfOk result (λ path. IfSome path (λ p. length (spelled_route p) ≤ 4096)) }
        ensures too_long { IfErr result (λ e. e ≢ PathError.Memory
            → IfSome (current_path self.now) (λ p. 4096 < length (spelled_route p))) }
    {
        match self.current_name() {
            None => Ok(None),
            Some(name) => Ok(Some(self.folder.join(alloc, name)?)),
        }
    }

    /// The text of the current row, which is empty where there is no row.
    pub fn current_text(&self, alloc: Global) -> Result<Text, NoMemory>
        ensures { IfOk result (λ text. text ≡ current_text self.now) }
    {
        match self.listing.item(self.cursor) {
            Some(item) => Text::from_str(alloc, item.name.text()),
            None => Text::from_str(alloc, no_name(self.cursor < self.listing.len())),
        }
    }

    /// Moves the cursor as a key says: by a row, by a page of so many rows, or to an end.
    pub fn move_by(&mut self, page: usize, base: Base)
        requires { page < 2 ^ 16 }
        ensures { self.new ≡ moved_by page base self.old }
    {
        let row = moved(self.row_count(), page, self.cursor, base);
        self.first = scrolled(rows_shown(self.format.layout(), page), self.first, row);
        self.cursor = row;
    }

    /// Shows the columns of a format.
    pub fn set_format(&mut self, page: usize, format: PanelFormat)
        requires { page < 2 ^ 16 }
        ensures { self.new ≡ with_format page format self.old }
    {
        self.first = scrolled(rows_shown(format.layout(), page), self.first, self.cursor);
        self.format = format;
    }

    /// Shows names alone, in two columns. The format is kept, to be gone back to.
    pub fn set_brief(&mut self, page: usize)
        requires { page < 2 ^ 16 }
        ensures { self.new ≡ with_brief page self.old }
    {
        self.first = scrolled(rows_shown(Layout::Brief, page), self.first, self.cursor);
        self.format.set_brief();
    }
}

/// The text of a row that has no name: that of `..`, or none where there is no row.
fn no_name(is_row: bool) -> &'static str
    ensures { result.now ≡ (if is_row then codes ".." else []) }
{
    if is_row { ".." } else { "" }
}
