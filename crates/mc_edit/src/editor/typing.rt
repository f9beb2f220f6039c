//! The commands that put bytes in and take them out.
ghost use Rattle.std.specs.Prelude.{◌≡◌, ◌≢◌, IfErr, OnOk, OnErr, Ok, Err, ◌≤◌, length, encode_utf8};
ghost use Rattle.mc_edit.specs.declared.error.EditError.TheVariants.{Memory};
ghost use Rattle.mc_edit.specs.Commands.{text_with_typed, removed_text};
ghost use Rattle.mc_edit.specs.Lines.{line_start, line_end, line_past};
ghost use Rattle.mc_edit.specs.Moves.{left_of, right_of};

use super::{Editor, Splice};
use crate::error::EditError;
use crate::lines::{line_end, line_past, line_start};
use crate::moves::{left_of, right_of};
use mc_text::Bytes;
use std::alloc::Global;

impl Editor {
    pub(super) fn insert(&mut self, alloc: Global, character: char) -> Result<(), EditError>
        ensures done { OnOk result (text_with_typed self.old (encode_utf8 character) ≡ Ok self.new) }
        ensures refused { IfErr result (λ error. error ≢ Memory → text_with_typed self.old
            (encode_utf8 character) ≡ Err error) }
        ensures same { OnErr result (self.new ≡ self.old) }
    {
        let mut room = [0; 4];
        self.put_in(alloc, character.encode_utf8(&mut room).as_bytes())
    }

    /// Bytes are put before the point.
    #[tactic(auto, unfolding(crate::specs::Edits::largest_text))]
    pub(super) fn put_in(&mut self, alloc: Global, new: &[u8]) -> Result<(), EditError>
        requires { length new.now ≤ 16777216 }
        ensures done { OnOk result (text_with_typed self.old new.now ≡ Ok self.new) }
        ensures refused { IfErr result (λ error. error ≢ Memory → text_with_typed self.old new.now
            ≡ Err error) }
        ensures same { OnErr result (self.new ≡ self.old) }
    {
        let point = self.point;
        self.splice(
            alloc,
            Splice {
                from: point,
                to: point,
                new: Bytes::from_slice(alloc, new)?,
                point: point + new.len(),
            },
        )
    }

    pub(super) fn backspace(&mut self, alloc: Global) -> Result<(), EditError>
        ensures done { OnOk result (removed_text self.old
            (left_of self.old.text.bytes self.old.text.point) self.old.text.point ≡ Ok self.new) }
        ensures refused { IfErr result (λ error. error ≢ Memory →
            removed_text self.old (left_of self.old.text.bytes self.old.text.point) self.old.text.point
            ≡ Err error) }
        ensures same { OnErr result (self.new ≡ self.old) }
    {
        let from = left_of(alloc, &self.text, self.point)?;
        self.take_out(alloc, from, self.point)
    }

    pub(super) fn delete_under(&mut self, alloc: Global) -> Result<(), EditError>
        ensures done { OnOk result (removed_text self.old self.old.text.point
            (right_of self.old.text.bytes self.old.text.point) ≡ Ok self.new) }
        ensures refused { IfErr result (λ error. error ≢ Memory →
            removed_text self.old self.old.text.point (right_of self.old.text.bytes self.old.text.point)
            ≡ Err error) }
        ensures same { OnErr result (self.new ≡ self.old) }
    {
        let to = right_of(alloc, &self.text, self.point)?;
        self.take_out(alloc, self.point, to)
    }

    /// Bytes are taken out, and the point stands there.
    pub(super) fn take_out(
        &mut self,
        alloc: Global,
        from: usize,
        to: usize,
    ) -> Result<(), EditError>
        requires ordered { from ≤ to }
        requires within { to ≤ length self.old.text.bytes }
        ensures done { OnOk result (removed_text self.old from to ≡ Ok self.new) }
        ensures refused { IfErr result (λ error. error ≢ Memory → removed_text self.old from to
            ≡ Err error) }
        ensures same { OnErr result (self.new ≡ self.old) }
    {
        self.splice(
            alloc,
            Splice {
                from,
                to,
                new: Bytes::from_slice(alloc, &[])?,
                point: from,
            },
        )
    }

    /// The point's line is taken out with its newline, and the point stands where the line began.
    pub(super) fn delete_line(&mut self, alloc: Global) -> Result<(), EditError>
        ensures done { OnOk result (removed_text self.old
            (line_start self.old.text.bytes self.old.text.point)
            (line_past self.old.text.bytes self.old.text.point) ≡ Ok self.new) }
        ensures refused { IfErr result (λ error. error ≢ Memory →
            removed_text self.old (line_start self.old.text.bytes self.old.text.point)
            (line_past self.old.text.bytes self.old.text.point) ≡ Err error) }
        ensures same { OnErr result (self.new ≡ self.old) }
    {
        let from = line_start(&self.text, self.point);
        let to = line_past(&self.text, self.point);
        self.take_out(alloc, from, to)
    }

    pub(super) fn delete_to_end(&mut self, alloc: Global) -> Result<(), EditError>
        ensures done { OnOk result (removed_text self.old self.old.text.point
            (line_end self.old.text.bytes self.old.text.point) ≡ Ok self.new) }
        ensures refused { IfErr result (λ error. error ≢ Memory →
            removed_text self.old self.old.text.point (line_end self.old.text.bytes self.old.text.point)
            ≡ Err error) }
        ensures same { OnErr result (self.new ≡ self.old) }
    {
        let to = line_end(&self.text, self.point);
        self.take_out(alloc, self.point, to)
    }
}
