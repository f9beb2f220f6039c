//! A file that is viewed on the whole screen.
ghost use Rattle.std.specs.Prelude.{◌≡◌, is_some, IfErr, IfOk, OnErr};
ghost use Rattle.tree_trait.specs.Answers.{IfKnown, HasCause};
ghost use Rattle.mc_viewer.specs.declared.subject.Subject.TheVariants.{File};
ghost use Rattle.mc_viewer.specs.Viewing.{AsTheTreeSays, IsReadError};
ghost use Rattle.ui_viewer.specs.Motions.{LooksAtNothing};
ghost use Rattle.ui_viewer.specs.declared.act.ViewerAct.{ViewerAct as ViewerActType};
ghost use Rattle.ui_viewer.specs.ViewerScreens.{IsOpened, KeyLeads, ReadsTree, after_message};
ghost use Rattle.ui_viewer.specs.ViewerScreens.{shuts_message as does_shut, wanted_motion};

mod line_keys;
mod page_keys;

use crate::act::ViewerAct;
use crate::asking::Asking;
use key_screen::Key;
use mc_text::{NoMemory, Path, Rows, Text};
use mc_viewer::{Subject, ViewError, Viewer};
use std::alloc::Global;
use std::marker::Model;
use tree_trait::{ReadTree, TreeError};
use ui_words::closes_message;

/// A file that is viewed: the page as it was read last, a line that asks over it, and a message of what
/// was refused. Of the file it keeps the rows on the screen alone: a frame reads no tree, so a key reads
/// the page that it leads to.
#[derive(Debug, Drop)]
pub struct ViewerMode {
    title: Text,
    viewer: Viewer,
    rows: Rows,
    asking: Option<Asking>,
    refused: Option<ViewError>,
}

impl Model for ViewerMode {
    ghost use Rattle.ui_viewer.specs.ViewerScreens.{ViewerScreen};

    ghost Value = { ViewerScreen };

    ghost view = { λ m. record {
      title = m.title;
      viewer = m.viewer;
      rows = m.rows;
      asking = m.asking;
      refused = m.refused;
    } };
}

impl ViewerMode {
    /// Opens a file at its top, on a screen of so many lines and columns, at least one. A file that
    /// can't be read is refused.
    pub fn open<T: ReadTree>(
        alloc: Global,
        tree: &mut T,
        path: &Path,
        lines: u16,
        columns: u16,
    ) -> Result<ViewerMode, ViewError>
        ensures opened { IfOk result (λ mode. IsOpened (T.contents tree.old) path.now lines columns mode) }
        ensures refused { IfKnown (T.contents tree.old) (λ log.
            IfErr result (AsTheTreeSays log (File path.now))) }
        ensures kinds { IfErr result IsReadError }
        ensures same { T.contents tree.new ≡ T.contents tree.old }
        ensures cause { HasCause (ViewError.Tree TreeError.Fault) (T.fault_count tree.old)
            (T.fault_count tree.new) result }
    {
        let title = path.text(alloc)?;
        let subject = Subject::File(path.copy(alloc)?);
        let viewer = Viewer::start(alloc, tree, subject, lines, columns.max(1))?;
        let rows = viewer.page(alloc, tree)?;
        Ok(ViewerMode {
            title,
            viewer,
            rows,
            asking: None,
            refused: None,
        })
    }

    /// Works a key. One that goes somewhere reads what it needs of the file, and the page that it leads to;
    /// where that is refused all stays as it was, under a message. One that goes nowhere looks at nothing.
    pub fn key<T: ReadTree>(
        &mut self,
        alloc: Global,
        tree: &mut T,
        key: Key,
    ) -> Result<ViewerAct, NoMemory>
        ensures leads { IfOk result (λ act. KeyLeads (T.contents tree.old) key act self.old self.new) }
        ensures still { LooksAtNothing (wanted_motion key self.old) self.old.viewer → tree.new ≡ tree.old }
        ensures lost { OnErr result (self.new ≡ self.old) }
        ensures reads { ReadsTree (λ (act : ViewerActType). act) result (T.contents tree.old)
            (T.contents tree.new) (T.fault_count tree.old) (T.fault_count tree.new) }
    {
        if self.has_message() {
            self.key_in_message(key);
            return Ok(ViewerAct::Stays);
        }
        match self.asking.take() {
            None => self.key_in_page(alloc, tree, key),
            Some(asking) => self.key_in_line(alloc, tree, asking, key),
        }
    }

    /// What is viewed.
    pub fn subject(&self) -> &Subject
        ensures { result.now ≡ self.now.viewer.subject }
    {
        self.viewer.subject()
    }

    /// The title above the page.
    pub fn title(&self) -> &Text
        ensures { result.now ≡ self.now.title }
    {
        &self.title
    }

    /// The rows of the page, as they were read last.
    pub fn rows(&self) -> &Rows
        ensures { result.now ≡ self.now.rows }
    {
        &self.rows
    }

    /// The line that asks.
    pub fn asking(&self) -> &Option<Asking>
        ensures { result.now ≡ self.now.asking }
    {
        &self.asking
    }

    /// What the message over all tells.
    pub fn refused(&self) -> &Option<ViewError>
        ensures { result.now ≡ self.now.refused }
    {
        &self.refused
    }

    /// Whether a message is shown.
    fn has_message(&self) -> bool
        ensures { result ≡ is_some self.now.refused }
    {
        self.refused.is_some()
    }

    /// A key while a message is shown.
    fn key_in_message(&mut self, key: Key)
        ensures { self.new ≡ after_message key self.old }
    {
        let _title = &self.title;
        if shuts_message(key) {
            self.refused = None;
        }
    }
}

/// Whether a key shuts a message.
fn shuts_message(key: Key) -> bool
    ensures { result ≡ does_shut key }
{
    if key.meta {
        return false;
    }
    closes_message(key.base)
}
