//! A text with a point, in which lines are found by their number.
ghost use Rattle.std.specs.Prelude.{◌≡◌, ◌+◌, ◌-◌, ◌*◌, ◌<◌, ◌≤◌, ◌^◌, ◌++◌};
ghost use Rattle.std.specs.Prelude.{length, take, drop, slice_index, slice_range};
ghost use Rattle.std.specs.Prelude.{IfOk, OnOk, OnErr};
ghost use Rattle.memchr.specs.Find.{IsFirst, IsLast, Passes, is_byte};
ghost use Rattle.gap_text.specs.Places.{first_place, IsLeastPlace};
ghost use Rattle.gap_text.specs.PointedText.{opened_text, moved_to, inserted_text, deleted_text};
ghost use Rattle.gap_text.specs.LineCounts.{newlines};

use crate::gap::GapBuffer;
use crate::line_counts::{BLOCK, LineMark, Side, count_on, mark_in_back, mark_in_front};
use mc_text::{Bytes, NoMemory};
use std::alloc::Global;
use std::marker::Model;

/// Bytes, and the point at which they are changed. Beside the gap buffer newlines are counted by blocks of
/// 64 KiB, before the point from the text's start and after it from the text's end, so a change takes back
/// only the counts of blocks that the point has passed. `line_mark` counts those that are missing: a line
/// is found in the time of the bytes that were put in or passed by the point since, of a number for each
/// block, and of at most three blocks.
#[derive(Drop)]
pub struct GapText {
    buffer: GapBuffer,
    before: Vec<usize>,
    behind: Vec<usize>,
}

impl Model for GapText {
    ghost use Rattle.std.specs.Prelude.{take, drop};
    ghost use Rattle.gap_text.specs.PointedText.{PointedText};
    ghost use Rattle.gap_text.specs.LineCounts.{AreCounts, seen_from};
    ghost use Rattle.gap_text.specs.declared.line_counts.Side.TheVariants.{Front, Back};

    ghost Value = { PointedText };

    ghost view = { λ t. t.buffer };

    ghost invariant = { λ t. AreCounts t.before.items (seen_from Front (take t.buffer.point t.buffer.bytes))
        × AreCounts t.behind.items (seen_from Back (drop t.buffer.point t.buffer.bytes)) };
}

impl GapText {
    ghost use Rattle.std.specs.Prelude.{[]};

    /// A text with no bytes. It takes no memory.
    pub fn new(alloc: Global) -> GapText
        ensures { result ≡ opened_text [] }
    {
        GapText {
            buffer: GapBuffer::new(alloc),
            before: Vec::new(alloc),
            behind: Vec::new(alloc),
        }
    }

    /// A copy of these bytes, with the point before the first. Takes time linear in the bytes.
    pub fn from_bytes(alloc: Global, bytes: &[u8]) -> Result<GapText, NoMemory>
        ensures { IfOk result (λ text. text ≡ opened_text bytes.now) }
    {
        Ok(GapText {
            buffer: GapBuffer::from_bytes(alloc, bytes)?,
            before: Vec::new(alloc),
            behind: Vec::new(alloc),
        })
    }

    /// How many bytes there are.
    pub fn len(&self) -> usize
        ensures value { result ≡ length self.now.bytes }
        ensures small { result < 2 ^ 63 }
    {
        self.buffer.len()
    }

    /// How many bytes stand before the point.
    pub fn point(&self) -> usize
        ensures value { result ≡ self.now.point }
        ensures within { result ≤ length self.now.bytes }
    {
        self.buffer.point()
    }

    /// The byte at a place, in constant time.
    pub fn byte_at(&self, at: usize) -> u8
        requires { at < length self.now.bytes }
        ensures { result ≡ slice_index self.now.bytes at }
    {
        self.buffer.byte_at(at)
    }

    /// The bytes before the point.
    pub fn front(&self) -> &[u8]
        ensures { result.now ≡ take self.now.point self.now.bytes }
    {
        self.buffer.front()
    }

    /// The bytes after the point.
    pub fn back(&self) -> &[u8]
        ensures { result.now ≡ drop self.now.point self.now.bytes }
    {
        self.buffer.back()
    }

    /// Moves the point to a place. The bytes between the two points are moved over the
    /// gap; it takes no memory.
    pub fn move_to(&mut self, at: usize)
        requires { at ≤ length self.old.bytes }
        ensures { self.new ≡ moved_to self.old at }
    {
        let point = self.buffer.point();
        self.before.truncate(at.min(point) / BLOCK);
        self.behind
            .truncate((self.buffer.len() - at.max(point)) / BLOCK);
        self.buffer.move_to(at);
    }

    /// Puts bytes before the point, which then stands after them. Takes time linear in the bytes. Where the
    /// gap is too short for them, the block grows by at least a quarter, so many insertions at one place
    /// take time linear in the text and all their bytes.
    pub fn insert(&mut self, bytes: &[u8]) -> Result<(), NoMemory>
        ensures done { OnOk result (self.new ≡ inserted_text self.old bytes.now) }
        ensures refused { OnErr result (self.new ≡ self.old) }
    {
        let _point = self.buffer.point();
        self.buffer.insert(bytes)?;
        Ok(())
    }

    /// The next `count` bytes after the point give way to new ones, and the point stands after these. The
    /// block grows only where the new ones don't fit into their room and the gap.
    pub fn replace(&mut self, count: usize, bytes: &[u8]) -> Result<(), NoMemory>
        requires { self.old.point + count ≤ length self.old.bytes }
        ensures done { OnOk result (self.new ≡ inserted_text (deleted_text self.old count) bytes.now) }
        ensures refused { OnErr result (self.new ≡ self.old) }
    {
        self.behind
            .truncate((self.buffer.back().len() - count) / BLOCK);
        self.buffer.replace(count, bytes)?;
        Ok(())
    }

    /// Takes out the next `count` bytes after the point, in constant time. It takes no
    /// memory, and gives none back.
    pub fn delete(&mut self, count: usize)
        requires { self.old.point + count ≤ length self.old.bytes }
        ensures { self.new ≡ deleted_text self.old count }
    {
        self.behind
            .truncate((self.buffer.back().len() - count) / BLOCK);
        self.buffer.delete(count);
    }

    /// The first place at or after `from` where the bytes stand: an empty text is never found, nor is
    /// any past the end. Takes time linear in the text and the bytes, and at each of the
    /// `bytes.len() - 1` places from which they would lie on both sides of the point the time to compare
    /// them up to the first difference.
    pub fn find(&self, from: usize, bytes: &[u8]) -> Option<usize>
        ensures found { result ≡ first_place self.now.bytes bytes.now from }
        ensures least { 0 < length bytes.now → IsLeastPlace self.now.bytes bytes.now from result }
    {
        self.buffer.find(from, bytes)
    }

    /// The first place at or after `from` where a byte stands. Takes time linear in what it passes.
    pub fn byte_from(&self, from: usize, byte: u8) -> Option<usize>
        requires { from ≤ length self.now.bytes }
        ensures { IsFirst (Passes (is_byte byte) self.now.bytes) from (length self.now.bytes) result }
    {
        self.buffer.byte_from(from, byte)
    }

    /// The last place before `to` where a byte stands. Takes time linear in what it passes.
    pub fn byte_before(&self, to: usize, byte: u8) -> Option<usize>
        requires { to ≤ length self.now.bytes }
        ensures { IsLast (Passes (is_byte byte) self.now.bytes) 0 to result }
    {
        self.buffer.byte_before(to, byte)
    }

    /// A place with no more newlines before it than these: the last block's end of which
    /// that holds, or the point.
    pub fn line_mark(&mut self, lines: usize) -> LineMark
        ensures counted { result.lines ≡ newlines (take result.place self.old.bytes) }
        ensures before { result.lines ≤ lines }
        ensures within { result.place ≤ length self.old.bytes }
        ensures same { self.new ≡ self.old }
    {
        let before = count_on(&mut self.before, self.buffer.front(), Side::Front);
        if lines < before {
            return mark_in_front(&self.before, self.buffer.front(), lines);
        }
        let behind = count_on(&mut self.behind, self.buffer.back(), Side::Back);
        let mark = mark_in_back(&self.behind, self.buffer.back(), behind, lines - before);
        LineMark {
            place: self.buffer.point() + mark.place,
            lines: before + mark.lines,
        }
    }

    /// All bytes as one list. Takes time linear in them.
    pub fn to_bytes(&self, alloc: Global) -> Result<Bytes, NoMemory>
        ensures { IfOk result (λ bytes. bytes ≡ self.now.bytes) }
    {
        self.buffer.to_bytes(alloc)
    }

    /// The bytes from one place up to another, as one list. Takes time linear in them.
    pub fn range(&self, alloc: Global, from: usize, to: usize) -> Result<Bytes, NoMemory>
        requires ordered { from ≤ to }
        requires within { to ≤ length self.now.bytes }
        ensures { IfOk result (λ bytes. bytes ≡ slice_range self.now.bytes from to) }
    {
        self.buffer.range(alloc, from, to)
    }
}
