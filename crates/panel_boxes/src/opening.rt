//! The keys that open the boxes, and the boxes as they open.
ghost use Rattle.std.specs.Prelude.{◌≡◌, IfOk};
ghost use Rattle.panel_boxes.specs.Openings.{filter_text, line_of, opened_panel_box};
ghost use Rattle.panel_boxes.specs.Openings.{opening_of as opening_by, plain_opening, title_of};

use crate::options::option_rows;
use crate::panel_box::{Asked, PanelBox};
use key_screen::{Base, Key};
use mc_dialogs::{InputLine, ListBox};
use mc_text::NoMemory;
use panel_listing::Wish;
use std::alloc::Global;

/// Which box a key opens.
#[derive(Clone, Copy, Debug, Drop, PartialEq, Eq)]
pub enum Opening {
    /// Asks for the pattern of the names to be tagged.
    Select,
    /// Asks for the pattern of the names that lose their tags.
    Unselect,
    /// The list of what may be set.
    Options,
    /// The next key says what is wanted.
    Pending,
}

/// Which box of the panels a key opens, if it opens one.
pub fn opening_of(key: Key) -> Option<Opening>
    ensures { result ≡ opening_by key }
{
    if key.meta {
        return None;
    }
    opening_by_base(key.base)
}

fn opening_by_base(base: Base) -> Option<Opening>
    ensures { result ≡ plain_opening base }
{
    match base {
        Base::Char('+') => Some(Opening::Select),
        Base::Char('\\') => Some(Opening::Unselect),
        Base::Char('-') => Some(Opening::Unselect),
        Base::F(9) => Some(Opening::Options),
        Base::Ctrl(b'x') => Some(Opening::Pending),
        _ => None,
    }
}

impl PanelBox {
    /// The box as it opens on a screen of so many lines.
    pub fn open(alloc: Global, lines: u16, opening: Opening) -> Result<PanelBox, NoMemory>
        ensures { IfOk result (λ box. box ≡ opened_panel_box lines opening) }
    {
        match opening {
            Opening::Select => typed(alloc, Asked::Select, "*"),
            Opening::Unselect => typed(alloc, Asked::Unselect, "*"),
            Opening::Options => options(alloc, lines),
            Opening::Pending => Ok(PanelBox::Pending),
        }
    }
}

/// A line that asks for this, with such a text at first.
pub(crate) fn typed(alloc: Global, asked: Asked, text: &str) -> Result<PanelBox, NoMemory>
    ensures { IfOk result (λ box. box ≡ PanelBox.Typed asked (line_of asked text.now)) }
{
    let line = InputLine::new(alloc, title_of(asked), text)?;
    Ok(PanelBox::Typed(asked, line))
}

/// The title of the line that asks for this.
fn title_of(asked: Asked) -> &'static str
    ensures { result.now ≡ title_of asked }
{
    match asked {
        Asked::Select => "Select",
        Asked::Unselect => "Unselect",
        Asked::Filter => "Filter",
        Asked::Format => "Format",
    }
}

/// The list of what may be set.
fn options(alloc: Global, lines: u16) -> Result<PanelBox, NoMemory>
    ensures { IfOk result (λ box. box ≡ opened_panel_box lines Opening.Options) }
{
    let rows = option_rows(alloc)?;
    let list = ListBox::new(alloc, "Options", rows, lines, false)?;
    Ok(PanelBox::Options(list))
}

/// The text of the filter that is wished for, which is empty where there is none.
pub(crate) fn filter_text(wish: &Wish) -> &str
    ensures { result.now ≡ filter_text wish.now.filter }
{
    match &wish.filter {
        None => "",
        Some(pattern) => pattern.text(),
    }
}
