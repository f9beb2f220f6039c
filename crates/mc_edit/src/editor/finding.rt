//! The commands that search.
ghost use Rattle.std.specs.Prelude.{◌≡◌, ◌≢◌, ◌+◌, ◌≤◌, IfSome, IfErr, OnOk, OnErr, Ok, Err, length};
ghost use Rattle.mc_edit.specs.declared.error.EditError.TheVariants.{Memory};
ghost use Rattle.gap_text.specs.Places.{first_place};
ghost use Rattle.mc_edit.specs.Brackets.{partner_of};
ghost use Rattle.mc_edit.specs.Commands.{text_at_found, all_replaced};

use super::{Editor, LARGEST_TEXT, Splice};
use crate::brackets::partner_of;
use crate::error::EditError;
use crate::lines::slice_of;
use crate::replacing::{replaced_run, run_size};
use gap_text::GapText;
use mc_text::Bytes;
use std::alloc::Global;

impl Editor {
    /// The point goes to the first place behind it where the bytes stand.
    pub(super) fn find(&mut self, what: &Bytes) -> Result<(), EditError>
        ensures done { OnOk result (text_at_found (first_place self.old.text.bytes what.now
            (self.old.text.point + 1)) self.old ≡ Ok self.new) }
        ensures refused { IfErr result (λ error.
            text_at_found (first_place self.old.text.bytes what.now (self.old.text.point + 1)) self.old
            ≡ Err error) }
        ensures same { OnErr result (self.new ≡ self.old) }
    {
        let Some(at) = place_behind(&self.text, self.point, slice_of(what)) else {
            return Err(EditError::NotFound);
        };
        self.point = at;
        Ok(())
    }

    /// The point goes to the bracket that belongs to the one at the point.
    pub(super) fn bracket(&mut self) -> Result<(), EditError>
        ensures done { OnOk result (text_at_found
            (partner_of self.old.text.bytes self.old.text.point) self.old ≡ Ok self.new) }
        ensures refused { IfErr result (λ error. text_at_found
            (partner_of self.old.text.bytes self.old.text.point) self.old ≡ Err error) }
        ensures same { OnErr result (self.new ≡ self.old) }
    {
        let Some(at) = partner_of(&self.text, self.point) else {
            return Err(EditError::NotFound);
        };
        self.point = at;
        Ok(())
    }

    /// Each place from the point on gives way, and the point stands behind the last of them. The size is
    /// measured before any of it is built.
    pub(super) fn replace_all(
        &mut self,
        alloc: Global,
        what: &Bytes,
        new: &Bytes,
    ) -> Result<(), EditError>
        ensures done { OnOk result (all_replaced what.now new.now self.old ≡ Ok self.new) }
        ensures refused { IfErr result (λ error. error ≢ Memory
            → all_replaced what.now new.now self.old ≡ Err error) }
        ensures same { OnErr result (self.new ≡ self.old) }
    {
        let what = slice_of(what);
        if what.is_empty() {
            return Err(EditError::NotFound);
        }
        let point = self.point;
        self.text.move_to(point);
        let rest = self.text.back();
        let Some(run) = run_size(rest, what, slice_of(new)) else {
            return Err(EditError::Memory);
        };
        if run.end == 0 {
            return Err(EditError::NotFound);
        }
        let Some(size) = run.bytes.checked_add(self.text.len() - run.end) else {
            return Err(EditError::Memory);
        };
        if size > LARGEST_TEXT {
            return Err(EditError::TooLarge(size as u64));
        }
        let bytes = replaced_run(alloc, rest, what, slice_of(new), run.bytes)?;
        let after = point + slice_of(&bytes).len();
        self.splice(
            alloc,
            Splice {
                from: point,
                to: point + run.end,
                new: bytes,
                point: after,
            },
        )
    }
}

/// The first place behind the point where the bytes stand.
#[tactic(auto, unfolding(crate::specs::Edits::largest_text))]
fn place_behind(text: &GapText, point: usize, what: &[u8]) -> Option<usize>
    requires { point ≤ length text.now.bytes }
    ensures value { result ≡ first_place text.now.bytes what.now (point + 1) }
    ensures within { IfSome result (λ at. at ≤ length text.now.bytes) }
{
    let _len = text.len();
    text.find(point + 1, what)
}
