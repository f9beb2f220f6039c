//! A file that is edited on the whole screen.
ghost use Rattle.std.specs.Prelude.{◌≡◌, [], is_some, IfOk, OnErr};
ghost use Rattle.mc_edit.specs.Edits.{begun_text};
ghost use Rattle.ui_viewer.specs.ViewerScreens.{shuts_message as does_shut};
ghost use Rattle.ui_editor.specs.EditorScreens.{KeyLeads, after_message, opened};

mod asking_keys;
mod saves;
mod text_keys;

use crate::act::EditorAct;
use crate::asking::Asking;
use crate::saving::Saving;
use key_screen::Key;
use mc_edit::{EditError, Editor};
use mc_text::{NoMemory, Path, Text};
use std::alloc::Global;
use std::marker::Model;
use ui_words::closes_message;

/// A file that is edited: its text, what asks over it, and a message of what was refused. It reads no tree
/// and writes none: a save is asked for, and the caller tells when it is finished or has failed.
#[derive(Drop)]
pub struct EditorMode {
    lines: u16,
    path: Path,
    title: Text,
    editor: Editor,
    /// Changes from before the last save that was asked for are not saved.
    is_unsaved: bool,
    saving: Option<Saving>,
    asking: Option<Asking>,
    refused: Option<EditError>,
}

impl Model for EditorMode {
    ghost use Rattle.ui_editor.specs.EditorScreens.{EditorScreen};

    ghost Value = { EditorScreen };

    ghost view = { λ m. record {
      lines = m.lines;
      path = m.path;
      title = m.title;
      edited = m.editor;
      is_unsaved = m.is_unsaved;
      saving = m.saving;
      asking = m.asking;
      refused = m.refused;
    } };
}

impl EditorMode {
    /// A text as the file at a path, on a screen of so many lines.
    pub fn of(alloc: Global, lines: u16, path: Path, editor: Editor) -> Result<EditorMode, NoMemory>
        ensures { IfOk result (λ mode. mode ≡ opened lines path editor) }
    {
        Ok(EditorMode {
            lines,
            title: path.text(alloc)?,
            path,
            editor,
            is_unsaved: false,
            saving: None,
            asking: None,
            refused: None,
        })
    }

    /// An empty text, as a file that isn't there yet.
    pub fn begin(alloc: Global, lines: u16, path: Path) -> Result<EditorMode, NoMemory>
        ensures { IfOk result (λ mode. mode ≡ opened lines path (begun_text [])) }
    {
        match Editor::start(alloc, &[]) {
            Ok(editor) => EditorMode::of(alloc, lines, path, editor),
            Err(_error) => Err(NoMemory),
        }
    }

    /// Works a key. Nothing is read for it; where memory is wanting all stays as it was.
    pub fn key(&mut self, alloc: Global, key: Key) -> Result<EditorAct, NoMemory>
        ensures leads { IfOk result (λ act. KeyLeads key act self.old self.new) }
        ensures lost { OnErr result (self.new ≡ self.old) }
    {
        if self.has_message() {
            self.key_in_message(key);
            return Ok(EditorAct::Stays);
        }
        match self.asking.take() {
            None => self.key_in_text(alloc, key),
            Some(asking) => self.key_in_asking(alloc, asking, key),
        }
    }

    /// The file that is edited.
    pub fn path(&self) -> &Path
        ensures { result.now ≡ self.now.path }
    {
        &self.path
    }

    /// The title above the text.
    pub fn title(&self) -> &Text
        ensures { result.now ≡ self.now.title }
    {
        &self.title
    }

    /// The text that is edited.
    pub fn editor(&self) -> &Editor
        ensures { result.now ≡ self.now.edited }
    {
        &self.editor
    }

    /// What asks over the text.
    pub fn asking(&self) -> &Option<Asking>
        ensures { result.now ≡ self.now.asking }
    {
        &self.asking
    }

    /// What the message over all tells.
    pub fn refused(&self) -> &Option<EditError>
        ensures { result.now ≡ self.now.refused }
    {
        &self.refused
    }

    /// Whether a message is shown.
    fn has_message(&self) -> bool
        ensures { result ≡ is_some self.now.refused }
    {
        self.refused.is_some()
    }

    /// A key while a message is shown.
    fn key_in_message(&mut self, key: Key)
        ensures { self.new ≡ after_message key self.old }
    {
        let _title = &self.title;
        if shuts_message(key) {
            self.refused = None;
        }
    }
}

/// Whether a key shuts a message.
fn shuts_message(key: Key) -> bool
    ensures { result ≡ does_shut key }
{
    if key.meta {
        return false;
    }
    closes_message(key.base)
}
