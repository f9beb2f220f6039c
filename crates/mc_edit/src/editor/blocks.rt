//! The commands on blocks.
ghost use Rattle.std.specs.Prelude.{◌≡◌, ◌≢◌, ◌<◌, ◌≤◌, ◌++◌, IfSome, IfOk};
ghost use Rattle.std.specs.Prelude.{slice_range, IfErr, OnOk, OnErr, Ok, Err, length};
ghost use Rattle.mc_edit.specs.declared.error.EditError.TheVariants.{Memory};
ghost use Rattle.mc_edit.specs.Commands.{block_copied, block_moved, block_deleted};
ghost use Rattle.mc_edit.specs.Edits.{block_span};

use super::{Editor, Splice};
use crate::error::EditError;
use crate::lines::slice_of;
use gap_text::GapText;
use mc_text::{Bytes, NoMemory};
use std::alloc::Global;

impl Editor {
    /// The block's bytes are put at the point, which stays before them.
    pub(super) fn copy_block(&mut self, alloc: Global) -> Result<(), EditError>
        ensures done { OnOk result (block_copied
            (block_span self.old.block self.old.text.point) self.old ≡ Ok self.new) }
        ensures refused { IfErr result (λ error. error ≢ Memory →
            block_copied (block_span self.old.block self.old.text.point) self.old ≡ Err error) }
        ensures same { OnErr result (self.new ≡ self.old) }
    {
        let Some((start, end)) = self.block_span() else {
            return Err(EditError::NoBlock);
        };
        let point = self.point;
        let new = self.text.range(alloc, start, end)?;
        self.splice(
            alloc,
            Splice {
                from: point,
                to: point,
                new,
                point,
            },
        )
    }

    /// The block is taken out, and the point stands where it began.
    pub(super) fn delete_block(&mut self, alloc: Global) -> Result<(), EditError>
        ensures done { OnOk result (block_deleted
            (block_span self.old.block self.old.text.point) self.old ≡ Ok self.new) }
        ensures refused { IfErr result (λ error. error ≢ Memory →
            block_deleted (block_span self.old.block self.old.text.point) self.old ≡ Err error) }
        ensures same { OnErr result (self.new ≡ self.old) }
    {
        let Some((start, end)) = self.block_span() else {
            return Err(EditError::NoBlock);
        };
        self.take_out(alloc, start, end)
    }

    /// The block and the bytes between it and the point change places.
    pub(super) fn move_block(&mut self, alloc: Global) -> Result<(), EditError>
        ensures done { OnOk result (block_moved
            (block_span self.old.block self.old.text.point) self.old ≡ Ok self.new) }
        ensures refused { IfErr result (λ error. error ≢ Memory →
            block_moved (block_span self.old.block self.old.text.point) self.old ≡ Err error) }
        ensures same { OnErr result (self.new ≡ self.old) }
    {
        let Some((start, end)) = self.block_span() else {
            return Err(EditError::NoBlock);
        };
        let point = self.point;
        if point < start {
            let new = changed_places(alloc, &self.text, point, start, end)?;
            return self.splice(
                alloc,
                Splice {
                    from: point,
                    to: end,
                    new,
                    point,
                },
            );
        }
        if end < point {
            let new = changed_places(alloc, &self.text, start, end, point)?;
            return self.splice(
                alloc,
                Splice {
                    from: start,
                    to: point,
                    new,
                    point: start + (point - end),
                },
            );
        }
        Ok(())
    }

    /// The places between which the block lies.
    fn block_span(&self) -> Option<(usize, usize)>
        ensures value { result ≡ block_span self.now.block self.now.text.point }
        ensures ordered { IfSome result (λ span. span.0 < span.1) }
        ensures within { IfSome result (λ span. span.1 ≤ length self.now.text.bytes) }
    {
        self.block.span(self.point)
    }
}

/// The bytes between the second and the third place, and then those between the first and the second.
fn changed_places(
    alloc: Global,
    text: &GapText,
    first: usize,
    second: usize,
    third: usize,
) -> Result<Bytes, NoMemory>
    requires below { first ≤ second }
    requires ordered { second ≤ third }
    requires within { third ≤ length text.now.bytes }
    ensures { IfOk result (λ bytes. bytes
        ≡ slice_range text.now.bytes second third ++ slice_range text.now.bytes first second) }
{
    let back = text.range(alloc, second, third)?;
    let front = text.range(alloc, first, second)?;
    let mut bytes = Vec::with_capacity(alloc, third - first)?;
    bytes.extend_from_slice(slice_of(&back))?;
    bytes.extend_from_slice(slice_of(&front))?;
    Ok(Bytes(bytes))
}
