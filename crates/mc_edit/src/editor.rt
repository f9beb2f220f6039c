//! A text that is edited by commands.
mod blocks;
mod finding;
mod moving;
mod playing;
mod typing;
mod viewing;

ghost use Rattle.std.specs.Prelude.{◌≡◌, ◌≢◌, ◌+◌, ◌≤◌, ◌<◌, false, [], IfOk};
ghost use Rattle.std.specs.Prelude.{OnOk, IfErr, OnErr, Ok, Err, length};
ghost use Rattle.mc_edit.specs.declared.error.EditError.TheVariants.{Memory, TooLarge};
ghost use Rattle.mc_edit.specs.Edits.{EditedText, begun_text, largest_text};
ghost use Rattle.mc_edit.specs.Edits.{undone_by, redone_by, spliced_bytes, marked_at};
ghost use Rattle.mc_edit.specs.Commands.{after_command};

use crate::block::Block;
use crate::changes::{are_same, make_again, put, take_back};
use crate::command::EditCmd;
use crate::error::EditError;
use crate::lines::slice_of;
use gap_text::{Change, GapText, Undo};
use mc_text::{Bytes, NoMemory};
use std::alloc::Global;
use std::marker::Model;
pub use viewing::EditView;

/// So many bytes a text may have.
pub const LARGEST_TEXT: usize = 16_777_216;

/// So many changes are kept.
pub const UNDO_DEPTH: usize = 32_768;

/// A text, the point at which it is changed, a block, and the changes that can be undone and redone. The
/// gap of the text lies where it was changed last; the point moves without it.
#[derive(Drop)]
pub struct Editor {
    text: GapText,
    point: usize,
    block: Block,
    undo: Undo,
    /// The bytes were changed since that was forgotten.
    is_changed: bool,
}

impl Model for Editor {
    ghost use Rattle.mc_edit.specs.Edits.{EditedText};
    ghost use Rattle.mc_edit.specs.Changes.{edits_back, edits_on, IsEditor};

    ghost Value = { EditedText };

    ghost view = { λ e. record {
      text = record { bytes = e.text.bytes; point = e.point };
      block = e.block;
      past = edits_back e.text.bytes e.undo.past;
      future = edits_on e.text.bytes e.undo.future;
      is_changed = e.is_changed;
    } };

    ghost invariant = { λ e. IsEditor e.text.bytes e.point e.block e.undo };
}

/// The bytes from one place up to another give way to new ones, and then the point stands at a place.
#[derive(Drop)]
struct Splice {
    from: usize,
    to: usize,
    new: Bytes,
    point: usize,
}

impl Editor {
    ghost use Rattle.mc_edit.specs.Splices.{after_splice};

    /// A text of these bytes, with the point before the first, and nothing to undo.
    #[tactic(auto, unfolding(crate::specs::Edits::largest_text, crate::specs::Edits::undo_depth))]
    pub fn start(alloc: Global, bytes: &[u8]) -> Result<Editor, EditError>
        ensures done { IfOk result (λ editor. editor ≡ begun_text bytes.now) }
        ensures large { IfErr result (λ error. error ≢ Memory →
            (error ≡ TooLarge (length bytes.now)) × (largest_text < length bytes.now)) }
        ensures small { IfOk result (λ editor. length bytes.now ≤ largest_text) }
    {
        if bytes.len() > LARGEST_TEXT {
            return Err(EditError::TooLarge(bytes.len() as u64));
        }
        Ok(Editor {
            text: GapText::from_bytes(alloc, bytes)?,
            point: 0,
            block: Block::Absent,
            undo: Undo::new(alloc, UNDO_DEPTH)?,
            is_changed: false,
        })
    }

    /// All bytes as one list.
    pub fn bytes(&self, alloc: Global) -> Result<Bytes, NoMemory>
        ensures { IfOk result (λ bytes. bytes ≡ self.now.text.bytes) }
    {
        self.text.to_bytes(alloc)
    }

    /// How many bytes stand before the point.
    pub fn point(&self) -> usize
        ensures value { result ≡ self.now.text.point }
        ensures within { result ≤ length self.now.text.bytes }
    {
        self.point
    }

    /// Whether the bytes were changed since they were given, or since that was forgotten.
    pub fn is_changed(&self) -> bool
        ensures { result ≡ self.now.is_changed }
    {
        self.is_changed
    }

    /// Forgets that the bytes were changed, as when they are saved.
    pub fn forget_change(&mut self)
        ensures { self.new ≡ record self.old { is_changed = false } }
    {
        self.is_changed = false;
    }

    /// Bytes give way to new ones, as one change, unless they are the same.
    fn splice(&mut self, alloc: Global, splice: Splice) -> Result<(), EditError>
        requires ordered { splice.from ≤ splice.to }
        requires within { splice.to ≤ length self.old.text.bytes }
        requires point { splice.point ≤ length
            (spliced_bytes self.old.text.bytes splice.from splice.to splice.new) }
        ensures done { OnOk result (after_splice splice self.old ≡ Ok self.new) }
        ensures refused { IfErr result (λ error. error ≢ Memory → after_splice splice self.old
            ≡ Err error) }
        ensures same { OnErr result (self.new ≡ self.old) }
    {
        let removed = self.text.range(alloc, splice.from, splice.to)?;
        if are_same(&splice.new, &removed) {
            self.point = splice.point;
            return Ok(());
        }
        let Splice {
            from,
            to,
            new,
            point,
        } = splice;
        let size = from + (slice_of(&new).len() + (self.text.len() - to));
        if size > LARGEST_TEXT {
            return Err(EditError::TooLarge(size as u64));
        }
        put(&mut self.text, from, to, slice_of(&new))?;
        self.undo.note(Change {
            at: from,
            removed,
            inserted: new,
            before: self.point,
            after: point,
        });
        self.point = point;
        self.block = Block::Absent;
        self.is_changed = true;
        Ok(())
    }

    /// Takes the newest change back.
    fn undo(&mut self) -> Result<(), EditError>
        ensures done { OnOk result (undone_by self.old.past self.old ≡ Ok self.new) }
        ensures refused { IfErr result (λ error. error ≢ Memory → undone_by self.old.past self.old
            ≡ Err error) }
        ensures same { OnErr result (self.new ≡ self.old) }
    {
        let Some(change) = self.undo.next_undone() else {
            return Err(EditError::NothingToUndo);
        };
        let point = change.before;
        take_back(&mut self.text, change)?;
        self.undo.step_back();
        self.point = point;
        self.block = Block::Absent;
        self.is_changed = true;
        Ok(())
    }

    /// Makes the change again that was taken back last.
    fn redo(&mut self) -> Result<(), EditError>
        ensures done { OnOk result (redone_by self.old.future self.old ≡ Ok self.new) }
        ensures refused { IfErr result (λ error. error ≢ Memory
            → redone_by self.old.future self.old ≡ Err error) }
        ensures same { OnErr result (self.new ≡ self.old) }
    {
        let Some(change) = self.undo.next_redone() else {
            return Err(EditError::NothingToRedo);
        };
        let point = change.after;
        make_again(&mut self.text, change)?;
        self.undo.step_forward();
        self.point = point;
        self.block = Block::Absent;
        self.is_changed = true;
        Ok(())
    }

    /// Carries a command out. A refused one changes nothing. It takes the time of what it changes, of the
    /// lines that it moves over, and of the bytes between the last change and this one.
    pub fn command(&mut self, alloc: Global, cmd: &EditCmd) -> Result<(), EditError>
        ensures done { OnOk result (after_command cmd.now self.old ≡ Ok self.new) }
        ensures refused { IfErr result (λ error. error ≢ Memory → after_command cmd.now self.old
            ≡ Err error) }
        ensures same { OnErr result (self.new ≡ self.old) }
    {
        match cmd {
            EditCmd::Insert(character) => return self.insert(alloc, *character),
            EditCmd::NewLine => return self.put_in(alloc, b"\n"),
            EditCmd::Backspace => return self.backspace(alloc),
            EditCmd::DeleteUnder => return self.delete_under(alloc),
            EditCmd::Left => return self.left(alloc),
            EditCmd::Right => return self.right(alloc),
            EditCmd::Up => return self.up(alloc),
            EditCmd::Down => return self.down(alloc),
            EditCmd::PageUp(count) => return self.page_up(alloc, *count),
            EditCmd::PageDown(count) => return self.page_down(alloc, *count),
            EditCmd::LineStart => self.line_start(),
            EditCmd::LineEnd => self.line_end(),
            EditCmd::TextStart => self.text_start(),
            EditCmd::TextEnd => self.text_end(),
            EditCmd::Mark => self.mark(),
            EditCmd::CopyBlock => return self.copy_block(alloc),
            EditCmd::MoveBlock => return self.move_block(alloc),
            EditCmd::DeleteBlock => return self.delete_block(alloc),
            EditCmd::DeleteLine => return self.delete_line(alloc),
            EditCmd::DeleteToEnd => return self.delete_to_end(alloc),
            EditCmd::Undo => return self.undo(),
            EditCmd::Redo => return self.redo(),
            EditCmd::Find(what) => return self.find(what),
            EditCmd::ReplaceAll(what, new) => return self.replace_all(alloc, what, new),
            EditCmd::GoLine(line) => self.go_line(*line),
            EditCmd::Bracket => return self.bracket(),
        }
        Ok(())
    }

    fn mark(&mut self)
        ensures { self.new ≡ record self.old { block = marked_at self.old.text.point self.old.block } }
    {
        self.block = self.block.marked_at(self.point);
    }
}
