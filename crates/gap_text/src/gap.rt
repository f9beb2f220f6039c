//! A text with a point, kept in one block with a gap at the point.
ghost use Rattle.std.specs.Prelude.{◌≡◌, ◌+◌, ◌^◌, ◌<◌, ◌≤◌, ◌++◌, length, take};
ghost use Rattle.std.specs.Prelude.{drop, slice_index, slice_range, vec_len};
ghost use Rattle.std.specs.Prelude.{IfOk, OnOk, OnErr};
ghost use Rattle.memchr.specs.Find.{IsFirst, IsLast, Passes, is_byte};
ghost use Rattle.gap_text.specs.Places.{first_place, IsLeastPlace};
ghost use Rattle.gap_text.specs.PointedText.{opened_text, moved_to, inserted_text, deleted_text};

use crate::bytes::{byte_in_halves, last_byte_in_halves};
use crate::places::place_in_halves;
use mc_text::{Bytes, NoMemory};
use std::alloc::Global;
use std::marker::Model;

/// Bytes, and the point at which they are changed. The gap lies at the point: `room` holds the bytes before
/// it, then the gap from `gap_start` to `gap_end`, whose bytes mean nothing, then the bytes after it.
#[derive(Drop)]
pub struct GapBuffer {
    room: Vec<u8>,
    gap_start: usize,
    gap_end: usize,
}

impl Model for GapBuffer {
    ghost use Rattle.std.specs.Prelude.{◌++◌, ◌≤◌, take, drop, length};
    ghost use Rattle.gap_text.specs.PointedText.{PointedText};

    ghost Value = { PointedText };

    ghost view = { λ t. record {
      bytes = take t.gap_start t.room.items ++ drop t.gap_end t.room.items;
      point = t.gap_start;
    } };

    ghost invariant = { λ t. (t.gap_start ≤ t.gap_end) × (t.gap_end ≤ length t.room.items) };
}

impl GapBuffer {
    ghost use Rattle.std.specs.Prelude.{[]};

    /// A text with no bytes. It takes no memory.
    pub fn new(alloc: Global) -> GapBuffer
        ensures { result ≡ opened_text [] }
    {
        GapBuffer {
            room: Vec::new(alloc),
            gap_start: 0,
            gap_end: 0,
        }
    }

    /// A copy of these bytes, with the point before the first. Takes time linear in the bytes.
    pub fn from_bytes(alloc: Global, bytes: &[u8]) -> Result<GapBuffer, NoMemory>
        ensures { IfOk result (λ text. text ≡ opened_text bytes.now) }
    {
        Ok(GapBuffer {
            room: Vec::from_slice(alloc, bytes)?,
            gap_start: 0,
            gap_end: 0,
        })
    }

    /// How many bytes there are.
    pub fn len(&self) -> usize
        ensures value { result ≡ length self.now.bytes }
        ensures small { result < 2 ^ 63 }
    {
        self.room.len() - (self.gap_end - self.gap_start)
    }

    /// How many bytes stand before the point.
    pub fn point(&self) -> usize
        ensures value { result ≡ self.now.point }
        ensures within { result ≤ length self.now.bytes }
    {
        self.gap_start
    }

    /// The byte at a place, in constant time.
    pub fn byte_at(&self, at: usize) -> u8
        requires { at < length self.now.bytes }
        ensures { result ≡ slice_index self.now.bytes at }
    {
        let (front, back) = (self.front(), self.back());
        if at < front.len() {
            front[at]
        } else {
            back[at - front.len()]
        }
    }

    /// Moves the point to a place. The bytes between the two points are moved over the
    /// gap; it takes no memory.
    pub fn move_to(&mut self, at: usize)
        requires { at ≤ length self.old.bytes }
        ensures { self.new ≡ moved_to self.old at }
    {
        if at < self.point() {
            self.move_back(at);
        } else {
            self.move_on(at);
        }
    }

    /// Puts bytes before the point, which then stands after them. Takes time linear in the bytes. Where the
    /// gap is too short for them, the block grows by at least a quarter, so many insertions at one place
    /// take time linear in the text and all their bytes.
    pub fn insert(&mut self, bytes: &[u8]) -> Result<(), NoMemory>
        ensures done { OnOk result (self.new ≡ inserted_text self.old bytes.now) }
        ensures refused { OnErr result (self.new ≡ self.old) }
    {
        let _point = self.point();
        self.replace(0, bytes)
    }

    /// The next `count` bytes after the point give way to new ones, and the point stands after these. Their
    /// room is taken first, so the block grows only where the new ones don't fit into it and the gap.
    pub fn replace(&mut self, count: usize, bytes: &[u8]) -> Result<(), NoMemory>
        requires { self.old.point + count ≤ length self.old.bytes }
        ensures done { OnOk result (self.new ≡ inserted_text (deleted_text self.old count) bytes.now) }
        ensures refused { OnErr result (self.new ≡ self.old) }
    {
        let end = self.gap_end + count;
        self.gap_end = with_gap_of(&mut self.room, self.gap_start, end, bytes.len())?;
        write_at(&mut self.room, self.gap_start, bytes);
        self.gap_start += bytes.len();
        Ok(())
    }

    /// Takes out the next `count` bytes after the point, in constant time. It takes no
    /// memory, and gives none back.
    pub fn delete(&mut self, count: usize)
        requires { self.old.point + count ≤ length self.old.bytes }
        ensures { self.new ≡ deleted_text self.old count }
    {
        self.gap_end += count;
    }

    /// The first place at or after `from` where the bytes stand: an empty text is never found, nor is
    /// any past the end. Takes time linear in the text and the bytes, and at each of the
    /// `bytes.len() - 1` places from which they would lie on both sides of the point the time to compare
    /// them up to the first difference.
    pub fn find(&self, from: usize, bytes: &[u8]) -> Option<usize>
        ensures found { result ≡ first_place self.now.bytes bytes.now from }
        ensures least { 0 < length bytes.now → IsLeastPlace self.now.bytes bytes.now from result }
    {
        if bytes.is_empty() {
            return None;
        }
        place_in_halves(self.front(), self.back(), from, bytes)
    }

    /// The first place at or after `from` where a byte stands. Takes time linear in what it passes.
    pub fn byte_from(&self, from: usize, byte: u8) -> Option<usize>
        requires { from ≤ length self.now.bytes }
        ensures { IsFirst (Passes (is_byte byte) self.now.bytes) from (length self.now.bytes) result }
    {
        byte_in_halves(self.front(), self.back(), from, byte)
    }

    /// The last place before `to` where a byte stands. Takes time linear in what it passes.
    pub fn byte_before(&self, to: usize, byte: u8) -> Option<usize>
        requires { to ≤ length self.now.bytes }
        ensures { IsLast (Passes (is_byte byte) self.now.bytes) 0 to result }
    {
        last_byte_in_halves(self.front(), self.back(), to, byte)
    }

    /// All bytes as one list. Takes time linear in them.
    pub fn to_bytes(&self, alloc: Global) -> Result<Bytes, NoMemory>
        ensures { IfOk result (λ bytes. bytes ≡ self.now.bytes) }
    {
        let mut bytes = Vec::with_capacity(alloc, self.len())?;
        bytes.extend_from_slice(self.front())?;
        bytes.extend_from_slice(self.back())?;
        Ok(Bytes(bytes))
    }

    /// The bytes from one place up to another, as one list. Takes time linear in them.
    pub fn range(&self, alloc: Global, from: usize, to: usize) -> Result<Bytes, NoMemory>
        requires ordered { from ≤ to }
        requires within { to ≤ length self.now.bytes }
        ensures { IfOk result (λ bytes. bytes ≡ slice_range self.now.bytes from to) }
    {
        let (front, back) = (self.front(), self.back());
        let mut bytes = Vec::with_capacity(alloc, to - from)?;
        bytes.extend_from_slice(part_of(front, from, to))?;
        bytes.extend_from_slice(part_of(
            back,
            from.saturating_sub(front.len()),
            to.saturating_sub(front.len()),
        ))?;
        Ok(Bytes(bytes))
    }

    fn move_back(&mut self, at: usize)
        requires { at ≤ self.old.point }
        ensures { self.new ≡ moved_to self.old at }
    {
        let end = self.gap_end - (self.gap_start - at);
        self.room.copy_within(at..self.gap_start, end);
        self.gap_start = at;
        self.gap_end = end;
    }

    fn move_on(&mut self, at: usize)
        requires after { self.old.point ≤ at }
        requires within { at ≤ length self.old.bytes }
        ensures { self.new ≡ moved_to self.old at }
    {
        let end = self.gap_end + (at - self.gap_start);
        self.room.copy_within(self.gap_end..end, self.gap_start);
        self.gap_start = at;
        self.gap_end = end;
    }

    /// The bytes before the point.
    pub fn front(&self) -> &[u8]
        ensures { result.now ≡ take self.now.point self.now.bytes }
    {
        &self.room[..self.gap_start]
    }

    /// The bytes after the point.
    pub fn back(&self) -> &[u8]
        ensures { result.now ≡ drop self.now.point self.now.bytes }
    {
        &self.room[self.gap_end..]
    }
}

/// What a half has of the bytes from one place up to another.
fn part_of(half: &[u8], from: usize, to: usize) -> &[u8]
    requires { from ≤ to }
    ensures { result.now ≡ slice_range half.now from to }
{
    let end = to.min(half.len());
    &half[from.min(end)..end]
}

/// Makes the gap from `start` to `end` at least `count` bytes long, and gives its new end.
/// The bytes around it stay.
fn with_gap_of(
    room: &mut Vec<u8>,
    start: usize,
    end: usize,
    count: usize,
) -> Result<usize, NoMemory>
    requires ordered { start ≤ end }
    requires within { end ≤ vec_len room.old }
    requires fits { vec_len room.old + count < 2 ^ 64 }
    ensures long { IfOk result (λ new_end. start + count ≤ new_end) }
    ensures ends { IfOk result (λ new_end. new_end ≤ vec_len room.new) }
    ensures front { OnOk result (take start room.new.items ≡ take start room.old.items) }
    ensures back { IfOk result (λ new_end. drop new_end room.new.items ≡ drop end room.old.items) }
    ensures refused { OnErr result (room.new.items ≡ room.old.items) }
{
    if count <= end - start {
        return Ok(end);
    }
    let len = room.len();
    let grown = len + count.max(len / 4);
    room.resize(grown, 0)?;
    let new_end = grown - (len - end);
    room.copy_within(end..len, new_end);
    Ok(new_end)
}

/// Writes bytes over those that stand from a place on.
fn write_at(room: &mut Vec<u8>, at: usize, bytes: &[u8])
    requires { at + length bytes.now ≤ vec_len room.old }
    ensures { let past = drop (at + length bytes.now) room.old.items in
        room.new.items ≡ take at room.old.items ++ (bytes.now ++ past) }
{
    room[at..at + bytes.len()].copy_from_slice(bytes);
}
