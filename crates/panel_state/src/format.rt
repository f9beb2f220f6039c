//! How a panel shows its rows.
ghost use Rattle.std.specs.Prelude.{◌≡◌, ◌≢◌, Err, codes, IfOk, IfErr};
ghost use Rattle.panel_listing.specs.FormatTexts.{format_of};
ghost use Rattle.panel_state.specs.Formats.{FormatState, format_meant, in_brief};

use mc_text::{NoMemory, Text};
use panel_listing::{FULL_FORMAT, Format, FormatError};
use std::alloc::Global;
use std::convert::AsStr;
use std::marker::Model;

/// Whether a panel shows a format's columns, or names alone in two columns.
#[derive(Clone, Copy, Debug, PartialEq, Eq)]
pub enum Layout {
    Columns,
    Brief,
}

/// A format as it was typed, and the layout. In brief the format is kept, so that it can be gone back to.
/// Contracts see the layout and the text.
#[derive(Debug, Drop)]
pub struct PanelFormat {
    layout: Layout,
    text: Text,
    format: Format,
}

impl Model for PanelFormat {
    ghost use Rattle.std.specs.Prelude.{◌≡◌, Ok};
    ghost use Rattle.panel_listing.specs.FormatTexts.{format_of};
    ghost use Rattle.panel_state.specs.Formats.{FormatState};

    ghost Value = { FormatState };

    ghost view = { λ f. record { layout = f.layout; text = f.text } };

    ghost invariant = { λ f. format_of f.text ≡ Ok f.format };
}

impl PanelFormat {
    /// The format that panels have at first.
    pub fn full(alloc: Global) -> Result<PanelFormat, NoMemory>
        ensures { IfOk result (λ format.
            format ≡ record { layout = Layout.Columns; text = codes "half type name | size | mtime" }) }
    {
        match PanelFormat::user(alloc, FULL_FORMAT) {
            Ok(format) => Ok(format),
            Err(error) => Err(no_memory(error)),
        }
    }

    /// The format that a text means. It is refused with the byte of its first fault.
    pub fn user(alloc: Global, text: &str) -> Result<PanelFormat, FormatError>
        ensures format { IfOk result (λ format.
            format ≡ record { layout = Layout.Columns; text = text.now }) }
        ensures refused { IfErr result (λ e. e ≢ FormatError.Memory → format_of text.now ≡ Err e) }
    {
        let format = Format::parse(alloc, text)?;
        Ok(PanelFormat {
            layout: Layout::Columns,
            text: Text::from_str(alloc, text)?,
            format,
        })
    }

    /// Shows names alone. The format is kept.
    pub fn set_brief(&mut self)
        ensures { self.new ≡ in_brief self.old }
    {
        self.layout = Layout::Brief;
    }

    /// Which layout it is.
    pub fn layout(&self) -> Layout
        ensures { result ≡ self.now.layout }
    {
        self.layout
    }

    /// The format as it was typed, in brief the one before.
    pub fn text(&self) -> &str
        ensures { result.now ≡ self.now.text }
    {
        self.text.as_str()
    }

    /// What its text means.
    pub fn format(&self) -> &Format
        ensures { result.now ≡ format_meant self.now.text }
    {
        &self.format
    }
}

/// Want of memory, where nothing else is wrong with a format.
pub fn no_memory(error: FormatError) -> NoMemory
    requires { error ≡ FormatError.Memory }
{
    let _ = error;
    NoMemory
}
